ghost use Rattle.std.specs.Prelude.{◌≡◌, ◌≤◌, ◌+◌};
ghost use Rattle.std.specs.Option.{option_len};
ghost use Rattle.pt_script.specs.Switches.{switch_named, no_switches, switched, with_switch, switch_lines};

use pt_text::is_word;

/// A switch of the configuration, by virtiofsd's name.
#[derive(Clone, Copy)]
pub enum Switch {
    Writeback,
    AnnounceSubmounts,
    Readdirplus,
    AllowDirectIo,
    KillprivV2,
    CleanNoatime,
    AllowMmap,
    PosixAcl,
    SecurityLabel,
    Xattr,
}

/// The switch of a key.
pub fn switch_named(key: &[u8]) -> Option<Switch>
    ensures { result ≡ switch_named key.now }
{
    if is_word(key, b"writeback") {
        Some(Switch::Writeback)
    } else if is_word(key, b"announce_submounts") {
        Some(Switch::AnnounceSubmounts)
    } else if is_word(key, b"readdirplus") {
        Some(Switch::Readdirplus)
    } else if is_word(key, b"allow_direct_io") {
        Some(Switch::AllowDirectIo)
    } else if is_word(key, b"killpriv_v2") {
        Some(Switch::KillprivV2)
    } else if is_word(key, b"clean_noatime") {
        Some(Switch::CleanNoatime)
    } else if is_word(key, b"allow_mmap") {
        Some(Switch::AllowMmap)
    } else if is_word(key, b"posix_acl") {
        Some(Switch::PosixAcl)
    } else if is_word(key, b"security_label") {
        Some(Switch::SecurityLabel)
    } else if is_word(key, b"xattr") {
        Some(Switch::Xattr)
    } else {
        None
    }
}

/// The switches that a script sets, each once at most.
#[derive(Clone, Copy)]
pub struct Switches {
    pub writeback: Option<bool>,
    pub announce_submounts: Option<bool>,
    pub readdirplus: Option<bool>,
    pub allow_direct_io: Option<bool>,
    pub killpriv_v2: Option<bool>,
    pub clean_noatime: Option<bool>,
    pub allow_mmap: Option<bool>,
    pub posix_acl: Option<bool>,
    pub security_label: Option<bool>,
    pub xattr: Option<bool>,
}

impl Switches {
    /// None is set.
    pub fn none() -> Switches
        ensures { result ≡ no_switches }
    {
        Switches {
            writeback: None,
            announce_submounts: None,
            readdirplus: None,
            allow_direct_io: None,
            killpriv_v2: None,
            clean_noatime: None,
            allow_mmap: None,
            posix_acl: None,
            security_label: None,
            xattr: None,
        }
    }

    /// How it is set.
    pub fn get(&self, switch: Switch) -> Option<bool>
        ensures { result ≡ switched self.now switch }
    {
        match switch {
            Switch::Writeback => self.writeback,
            Switch::AnnounceSubmounts => self.announce_submounts,
            Switch::Readdirplus => self.readdirplus,
            Switch::AllowDirectIo => self.allow_direct_io,
            Switch::KillprivV2 => self.killpriv_v2,
            Switch::CleanNoatime => self.clean_noatime,
            Switch::AllowMmap => self.allow_mmap,
            Switch::PosixAcl => self.posix_acl,
            Switch::SecurityLabel => self.security_label,
            Switch::Xattr => self.xattr,
        }
    }

    pub fn set(&mut self, switch: Switch, on: bool)
        ensures set { self.new ≡ with_switch self.old switch on }
        ensures few { switch_lines self.new ≤ switch_lines self.old + 1 }
    {
        match switch {
            Switch::Writeback => self.writeback = Some(on),
            Switch::AnnounceSubmounts => self.announce_submounts = Some(on),
            Switch::Readdirplus => self.readdirplus = Some(on),
            Switch::AllowDirectIo => self.allow_direct_io = Some(on),
            Switch::KillprivV2 => self.killpriv_v2 = Some(on),
            Switch::CleanNoatime => self.clean_noatime = Some(on),
            Switch::AllowMmap => self.allow_mmap = Some(on),
            Switch::PosixAcl => self.posix_acl = Some(on),
            Switch::SecurityLabel => self.security_label = Some(on),
            Switch::Xattr => self.xattr = Some(on),
        }
    }

    /// How many of them are set.
    pub fn lines(&self) -> u32
        ensures lines { result ≡ switch_lines self.now }
        ensures few { result ≤ 10 }
    {
        lines_of(&self.writeback)
            + lines_of(&self.announce_submounts)
            + lines_of(&self.readdirplus)
            + lines_of(&self.allow_direct_io)
            + lines_of(&self.killpriv_v2)
            + lines_of(&self.clean_noatime)
            + lines_of(&self.allow_mmap)
            + lines_of(&self.posix_acl)
            + lines_of(&self.security_label)
            + lines_of(&self.xattr)
    }
}

/// How many lines set what stands once at most.
pub fn lines_of<T>(value: &Option<T>) -> u32
    ensures lines { result ≡ option_len value.now }
    ensures few { result ≤ 1 }
{
    match value {
        None => 0,
        Some(_) => 1,
    }
}
