/// One call of a device in memory, as its object writes it down.
#[derive(Drop)]
pub enum Note {
    Connected(String, u16),
    NotConnected(String, u16),
    Sent(Vec<u8>, usize),
    NotSent(Vec<u8>),
    Received(usize, Vec<u8>),
    NotReceived(usize),
    ShutDown,
}
