ghost use Rattle.std.specs.Prelude.{◌≡◌, ◌≤◌};
ghost use Rattle.pt_attr.specs.Access.{grants, grants_asked, group_may, is_granted, others_may, owner_may, root_may};

use pt_iface::{Attr, Context};

/// What a mask of `access(2)` asks for: reading, writing, execution.
const R_OK: u32 = 4;

const W_OK: u32 = 2;

const X_OK: u32 = 1;

fn owner_may(mode: u32, wanted: u32) -> bool
    requires { wanted ≤ 4 }
    ensures { result ≡ owner_may mode wanted }
{
    let bit = wanted * 64;
    mode & bit == bit
}

fn group_may(mode: u32, wanted: u32) -> bool
    requires { wanted ≤ 4 }
    ensures { result ≡ group_may mode wanted }
{
    let bit = wanted * 8;
    mode & bit == bit
}

fn others_may(mode: u32, wanted: u32) -> bool
    ensures { result ≡ others_may mode wanted }
{
    mode & wanted == wanted
}

/// Root may do all, but may execute only what some may.
fn root_may(mode: u32, wanted: u32) -> bool
    requires { wanted ≤ 4 }
    ensures { result ≡ root_may mode wanted }
{
    wanted != X_OK || owner_may(mode, wanted) || group_may(mode, wanted) || others_may(mode, wanted)
}

fn grants(who: Context, attr: &Attr, wanted: u32) -> bool
    requires { wanted ≤ 4 }
    ensures { result ≡ grants who attr.now wanted }
{
    (who.uid == 0 && root_may(attr.mode, wanted))
        || (attr.uid == who.uid && owner_may(attr.mode, wanted))
        || (attr.gid == who.gid && group_may(attr.mode, wanted))
        || others_may(attr.mode, wanted)
}

fn grants_asked(who: Context, attr: &Attr, mask: u32, wanted: u32) -> bool
    requires { wanted ≤ 4 }
    ensures { result ≡ grants_asked who attr.now mask wanted }
{
    mask & wanted != wanted || grants(who, attr, wanted)
}

/// Whether who asks may use what has these attributes in each way that the mask asks for. Owner and group are the
/// guest's ids.
pub fn is_granted(who: Context, mask: u32, attr: &Attr) -> bool
    ensures { result ≡ is_granted who mask attr.now }
{
    grants_asked(who, attr, mask, R_OK)
        && grants_asked(who, attr, mask, W_OK)
        && grants_asked(who, attr, mask, X_OK)
}
