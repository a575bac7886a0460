use crate::LocalFault;

/// One call on local files in memory, as their object writes it down.
#[derive(Drop)]
pub enum LocalNote {
    Loaded(String, u64, Vec<u8>),
    NotLoaded(String, u64, LocalFault),
    Stored(String, Vec<u8>),
    NotStored(String, Vec<u8>, LocalFault),
}
