use base::Items;
use trips_report::Said;

/// What a tool makes of a file: the bytes to be written, or why the file is refused.
#[derive(Drop)]
pub enum Made {
    Bytes(Items<u8>),
    Refused(Said),
}
