ghost use Rattle.std.specs.Prelude.{◌≡◌, ◌<◌, ◌==◌, length, List};
ghost use Rattle.dav_doc.specs.Machine as machine;
ghost use Rattle.dav_doc.specs.Names.{written};
ghost use Rattle.dav_markup.specs.End.{end_at, name_in_end};

/// Whether the byte goes on with an end tag, of whose name so many bytes have come: XML 1.0, production 42.
pub fn goes_on(name: &[u8], came: usize, byte: u8) -> bool
    requires { came < length name.now }
    ensures { (o : machine.Open) (os : List machine.Open) → written o.name ≡ name.now
        → machine.step (end_at o os came) byte ≡ name_in_end o os came result }
{
    byte == name[came]
}
