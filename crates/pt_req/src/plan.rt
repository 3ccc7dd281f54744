ghost use Rattle.std.specs.Prelude.{◌≡◌, IfOk, OnErr, ◌∷◌, []};
ghost use Rattle.pt_req.specs.Plan.{default_config};

use pt_host::Bytes;
use pt_iface::{Refusal, Timeout};
use pt_maps::{IdMap, IdRules, XattrMap};
use std::alloc::Global;

/// How the guest may cache files and directories, by virtiofsd's names.
#[derive(Clone, Copy, Debug)]
pub enum CachePolicy {
    /// Nothing: files are read and written directly.
    Never,
    /// Entries and attributes and what directories hold, but no file's contents.
    Metadata,
    /// As the guest's kernel decides at each opening.
    Auto,
    /// All, also from one opening to the next.
    Always,
}

/// What the file system is set up with, by virtiofsd's names. A switch comes with the requests that take it into
/// account.
#[derive(Drop)]
pub struct Config {
    /// How long the guest may keep a name that it looked up.
    pub entry_timeout: Timeout,
    /// How long the guest may keep an object's attributes.
    pub attr_timeout: Timeout,
    /// The path of the shared directory on the host.
    pub root_dir: Bytes,
    /// How many of the host's descriptors may be open for the guest at once.
    pub guest_fd_limit: u64,
    /// How the guest may cache what it opens.
    pub cache_policy: CachePolicy,
    /// Whether the guest may keep what it writes for a while, where it offers to.
    pub writeback: bool,
    /// Whether the guest is told which directories are mounts, where it offers to mind them.
    pub announce_submounts: bool,
    /// Whether the guest may read a directory together with its entries' attributes.
    pub readdirplus: bool,
    /// Whether `O_DIRECT` of the guest is passed on to the host.
    pub allow_direct_io: bool,
    /// Whether set-id bits are cleared where the guest asks for it: such a call is made without `CAP_FSETID`.
    pub killpriv_v2: bool,
    /// Whether `O_NOATIME` of the guest is left out: a host may refuse it to whom does not own the file.
    pub clean_noatime: bool,
    /// Whether the guest may map a file that it reads and writes directly.
    pub allow_mmap: bool,
    /// Whether access control lists are served, which the guest has to offer: its umask is then minded by the host.
    pub posix_acl: bool,
    /// Whether new objects are made with a security context, which the guest has to offer.
    pub security_label: bool,
    /// Whether the guest may use extended attributes.
    pub xattr: bool,
    /// How the names of extended attributes become each other.
    pub xattrmap: Option<XattrMap>,
    /// How the guest's uids and the host's become each other.
    pub uid_map: IdRules,
    /// How the gids do.
    pub gid_map: IdRules,
}

impl Config {
    /// The defaults: timeouts of five seconds, the host's root, no limit of descriptors, cached as the guest decides,
    /// with attributes of whole directories, neither direct I/O nor `O_NOATIME` on the host, ids and names as they are;
    /// every other switch is off. Its one refusal is that memory ran out.
    pub fn new(alloc: Global) -> Result<Config, Refusal>
        ensures ok { IfOk result (λ config. config ≡ default_config) }
        ensures err { OnErr result (result ≡ Err Refusal.Memory) }
    {
        let root_dir = match Bytes::from_slice(alloc, b"/") {
            Ok(bytes) => bytes,
            Err(_) => return Err(Refusal::Memory),
        };
        let timeout = Timeout { secs: 5, nanos: 0 };
        Ok(Config {
            entry_timeout: timeout,
            attr_timeout: timeout,
            root_dir,
            guest_fd_limit: u64::MAX,
            cache_policy: CachePolicy::Auto,
            writeback: false,
            announce_submounts: false,
            readdirplus: true,
            allow_direct_io: false,
            killpriv_v2: false,
            clean_noatime: true,
            allow_mmap: false,
            posix_acl: false,
            security_label: false,
            xattr: false,
            xattrmap: None,
            uid_map: IdRules::new(alloc),
            gid_map: IdRules::new(alloc),
        })
    }
}

/// The checked configuration with its maps, which every job is given.
#[derive(Drop)]
pub struct Plan {
    pub config: Config,
    pub uid_map: IdMap,
    pub gid_map: IdMap,
    /// The host's name of the attribute that holds a file's capabilities, where rules make it another one: such an
    /// attribute the host does not clear by itself.
    pub capability: Option<Bytes>,
}
