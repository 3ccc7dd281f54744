ghost use Rattle.std.specs.Prelude.{◌≡◌};

use pt_host::Fd;

/// How a number's object is kept.
#[derive(Drop)]
pub enum RowForm {
    /// By an open descriptor.
    File(Fd),
}

impl RowForm {
    /// The same form once more, which takes no memory.
    pub fn copy(&self) -> RowForm
        ensures { result ≡ self.now }
    {
        match self {
            RowForm::File(fd) => RowForm::File(*fd),
        }
    }
}

/// What the guest and the daemon agreed on at `FUSE_INIT`.
#[derive(Clone, Copy)]
pub struct Negotiated {
    pub writeback: bool,
    pub announce_submounts: bool,
    pub posix_acl: bool,
    pub sup_group: bool,
}

impl Negotiated {
    /// Nothing.
    pub const NONE: Negotiated = Negotiated {
        writeback: false,
        announce_submounts: false,
        posix_acl: false,
        sup_group: false,
    };
}
