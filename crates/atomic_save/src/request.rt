/// What a folder is asked.
#[derive(Drop)]
pub(crate) enum Request<'a> {
    LockName(&'a str),
    Access(&'a str),
    OpenFolder,
    LeftOvers,
    Seize(&'a str),
    Claim(&'a str),
    Compare(&'a str, &'a [u8]),
    Remove(&'a str),
    Create(&'a str),
    SetAccess,
    Write(&'a [u8]),
    Sync,
    Rename(&'a str, &'a str),
    SyncFolder,
}
