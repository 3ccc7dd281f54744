ghost use Rattle.std.specs.Prelude.{◌≡◌, IsOk};
ghost use Rattle.pt_host.specs.Seat.{with_umask};
ghost use Rattle.pt_host.specs.declared.seat.HostSeat.{HostSeat};
ghost use Rattle.pt_creds.specs.Umask.{SetsMask, IsMaskedFrom};

use crate::error::CredError;
use pt_host::{Host, HostOp, HostSeat};
use std::marker::Model;

/// A mask that is set until it is restored, which has to be done.
pub struct ScopedUmask {
    umask: u32,
}

impl Model for ScopedUmask {
    ghost use Rattle.std.specs.Prelude.{ℕ};

    ghost Value = { ℕ };

    ghost view = { λ scope. scope.umask };
}

/// Sets the mask, which is never refused, and tells the old one.
fn set_umask<H: Host>(host: &mut H, seat: &mut HostSeat, mask: u32) -> u32
    ensures made { SetsMask H.does mask host.old seat.old host.new seat.new }
    ensures old { result ≡ seat.old.umask }
    ensures seat { seat.new ≡ with_umask seat.old mask }
{
    let old = seat.umask;
    host.call(seat, &HostOp::SetUmask { mask });
    old
}

impl ScopedUmask {
    /// Sets a mask.
    pub fn new<H: Host>(host: &mut H, seat: &mut HostSeat, mask: u32) -> ScopedUmask
        ensures made { SetsMask H.does mask host.old seat.old host.new seat.new }
        ensures old { IsMaskedFrom seat.old result seat.new }
        ensures seat { seat.new ≡ with_umask seat.old mask }
    {
        let umask = set_umask(host, seat, mask);
        ScopedUmask { umask }
    }

    /// Sets the old mask again.
    pub fn restore<H: Host>(self, host: &mut H, seat: &mut HostSeat) -> Result<(), CredError>
        ensures made { SetsMask H.does self host.old seat.old host.new seat.new }
        ensures always { IsOk result }
        ensures seat { seat.new ≡ with_umask seat.old self }
        ensures back { (before : HostSeat) → IsMaskedFrom before self seat.old → seat.new ≡ before }
    {
        let ScopedUmask { umask } = self;
        set_umask(host, seat, umask);
        Ok(())
    }
}
