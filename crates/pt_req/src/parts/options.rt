ghost use Rattle.std.specs.Prelude.{◌≡◌};
ghost use Rattle.pt_req.specs.Options.{without_bits, cleaned, readable, written_back, passed_on, inode_flags};
ghost use Rattle.pt_req.specs.Options.{without_nofollow, bits_if};
ghost use Rattle.pt_req.specs.Options.{cache_options, open_options, create_options, making_flags, agreed_with};
ghost use Rattle.pt_req.specs.Options.{init_options, keeps_writes, is_short_of};
ghost use Rattle.pt_req.specs.Requests.{init_answer};

use crate::plan::{CachePolicy, Config};
use pt_host::{Errno, OpenFlags};
use pt_iface::{Answer, FsOptions, OpenOptions};
use pt_session::Negotiated;

/// The bits that the access mode takes, the `O_ACCMODE` of `open(2)`.
const O_ACCMODE: u32 = 3;

/// Entries are read with their attributes, where the guest's kernel sees fit.
const READDIRPLUS: FsOptions = FsOptions(
    FsOptions::DO_READDIRPLUS.0 | FsOptions::READDIRPLUS_AUTO.0,
);

/// What access control lists take.
const LISTS: FsOptions = FsOptions(
    FsOptions::POSIX_ACL.0 | FsOptions::DONT_MASK.0 | FsOptions::SETXATTR_EXT.0,
);

fn without_bits(flags: u32, bits: u32) -> u32
    ensures { result ≡ without_bits flags bits }
{
    flags & !bits
}

/// Without what no handle of the host has.
pub fn cleaned(config: &Config, flags: u32) -> u32
    ensures { result ≡ cleaned config.now flags }
{
    let flags = without_bits(flags, OpenFlags::O_APPEND.0);
    if config.clean_noatime {
        without_bits(flags, OpenFlags::O_NOATIME.0)
    } else {
        flags
    }
}

/// What is opened for writing only is opened for reading too.
fn readable(flags: u32) -> u32
    ensures { result ≡ readable flags }
{
    if flags & O_ACCMODE == OpenFlags::O_WRONLY.0 {
        without_bits(flags, O_ACCMODE) | OpenFlags::O_RDWR.0
    } else {
        flags
    }
}

/// Where the guest keeps what it writes, its kernel reads what it is to write a part of, and minds appends itself.
fn written_back(agreed: Negotiated, flags: u32) -> u32
    ensures { result ≡ written_back agreed flags }
{
    if agreed.writeback {
        without_bits(readable(flags), OpenFlags::O_APPEND.0)
    } else {
        flags
    }
}

fn passed_on(config: &Config, flags: u32) -> u32
    ensures { result ≡ passed_on config.now flags }
{
    if config.allow_direct_io {
        flags | OpenFlags::O_CLOEXEC.0
    } else {
        without_bits(flags, OpenFlags::O_DIRECT.0) | OpenFlags::O_CLOEXEC.0
    }
}

/// What an object is opened with.
pub fn inode_flags(config: &Config, agreed: Negotiated, flags: u32) -> u32
    ensures { result ≡ inode_flags config.now agreed flags }
{
    passed_on(config, written_back(agreed, flags))
}

/// And where a descriptor's link in `/proc` is followed.
pub fn without_nofollow(flags: u32) -> OpenFlags
    ensures { result ≡ without_nofollow flags }
{
    OpenFlags(without_bits(flags, OpenFlags::O_NOFOLLOW.0))
}

/// How the guest may cache what it opens, a directory or not.
fn cache_options(policy: CachePolicy, directory: bool) -> OpenOptions
    ensures { result.0 ≡ cache_options policy directory }
{
    match (policy, directory) {
        (CachePolicy::Never | CachePolicy::Metadata, false) => OpenOptions::DIRECT_IO,
        (CachePolicy::Metadata | CachePolicy::Always, true) => {
            OpenOptions(OpenOptions::KEEP_CACHE.0 | OpenOptions::CACHE_DIR.0)
        }
        (CachePolicy::Always, false) => OpenOptions::KEEP_CACHE,
        (CachePolicy::Never, true) | (CachePolicy::Auto, _) => OpenOptions(0),
    }
}

/// The options that an opening is answered with.
pub fn open_options(config: &Config, flags: u32) -> OpenOptions
    ensures { result ≡ open_options config.now flags }
{
    let directory = OpenFlags(flags).includes(OpenFlags::O_DIRECTORY);
    cache_options(config.cache_policy, directory)
}

/// The options that a making is answered with, whatever its flags.
pub fn create_options(config: &Config) -> OpenOptions
    ensures { result ≡ create_options config.now }
{
    cache_options(config.cache_policy, false)
}

/// What a file is made with: it is to be new, and no link is followed.
pub fn making_flags(flags: u32) -> OpenFlags
    ensures { result ≡ making_flags flags }
{
    let new = OpenFlags::O_CREAT.0
        | OpenFlags::O_EXCL.0
        | OpenFlags::O_NOFOLLOW.0
        | OpenFlags::O_CLOEXEC.0;
    OpenFlags(without_bits(flags, OpenFlags::O_APPEND.0) | new)
}

/// Whether the guest keeps what it writes: that is configured, and offered.
fn keeps_writes(config: &Config, capable: FsOptions) -> bool
    ensures { result ≡ keeps_writes config.now capable }
{
    config.writeback && capable.includes(FsOptions::WRITEBACK_CACHE)
}

/// Whether access control lists or security contexts are configured, and the guest does not offer what they take.
fn is_short_of(config: &Config, capable: FsOptions) -> bool
    ensures { result ≡ is_short_of config.now capable }
{
    config.posix_acl && !capable.includes(LISTS)
        || config.security_label && !capable.includes(FsOptions::SECURITY_CTX)
}

/// What is agreed on with a guest that offers this, also with one that is refused then.
pub fn agreed_with(config: &Config, capable: FsOptions) -> Negotiated
    ensures { result ≡ agreed_with config.now capable }
{
    Negotiated {
        writeback: keeps_writes(config, capable),
        announce_submounts: config.announce_submounts && capable.includes(FsOptions::SUBMOUNTS),
        posix_acl: config.posix_acl && capable.includes(LISTS),
        sup_group: capable.includes(FsOptions::CREATE_SUPP_GROUP) && !is_short_of(config, capable),
    }
}

/// These options, where they are granted.
fn bits_if(granted: bool, options: FsOptions) -> u32
    ensures { result ≡ bits_if granted options.0 }
{
    if granted { options.0 } else { 0 }
}

/// What a guest that offers this is granted at the beginning of its session, where it is not refused.
#[tactic(auto, using(crate::proofs::Granting::joined))]
fn init_options(config: &Config, capable: FsOptions) -> FsOptions
    ensures { result ≡ init_options config.now capable }
{
    let killpriv = config.killpriv_v2 && capable.includes(FsOptions::HANDLE_KILLPRIV_V2);
    FsOptions(
        bits_if(config.readdirplus, READDIRPLUS)
            | bits_if(keeps_writes(config, capable), FsOptions::WRITEBACK_CACHE)
            | bits_if(killpriv, FsOptions::HANDLE_KILLPRIV_V2)
            | bits_if(config.posix_acl, LISTS)
            | bits_if(config.security_label, FsOptions::SECURITY_CTX)
            | bits_if(config.allow_mmap, FsOptions::DIRECT_IO_ALLOW_MMAP),
    )
}

/// How `init` is answered: a guest that does not offer what the configuration asks for is refused.
pub fn init_answer(config: &Config, capable: FsOptions) -> Answer
    ensures { result ≡ init_answer config.now capable }
{
    if is_short_of(config, capable) {
        Answer::Refused(Errno::EPROTO)
    } else {
        Answer::Inited(init_options(config, capable))
    }
}
