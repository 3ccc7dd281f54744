ghost use Rattle.std.specs.Prelude.{◌≡◌};
ghost use Rattle.pt_host.specs.Errno.{ebadf, einval, erofs};

use pt_host::Errno;

pub fn ebadf() -> Errno
    ensures { result ≡ ebadf }
{
    Errno::EBADF
}

pub fn einval() -> Errno
    ensures { result ≡ einval }
{
    Errno::EINVAL
}

pub fn erofs() -> Errno
    ensures { result ≡ erofs }
{
    Errno::EROFS
}
