use base::Items;

/// What a listing tells of a function: its name as its tokens have it, whether it is of the library, the lines of its
/// definition, and the names of its scalars by their numbers, empty where one has none.
#[derive(Drop)]
pub struct Told {
    pub name: Items<u8>,
    pub library: bool,
    pub first: u64,
    pub last: u64,
    pub names: Items<Items<u8>>,
}
