//! The names of the system's numbers for a refusal, as Linux numbers them on x86-64 (`specs/Errnos.antt`): an operator looks for ENOSPC, not for 28.
ghost use Rattle.std.specs.Prelude.{◌≡◌};
ghost use Rattle.fts_log.specs.Errnos.{low_name, middle_name, high_name, errno_name};

/// The name of a number; `E?` of one that isn't listed.
#[tactic(auto, unfolding(crate::specs::Errnos::errno_name))]
pub(crate) fn errno_name(errno: u32) -> &'static str
    ensures { result.now ≡ errno_name errno }
{
    low_name(errno, middle_name(errno, high_name(errno, "E?")))
}

fn low_name(errno: u32, other: &'static str) -> &'static str
    ensures { result.now ≡ low_name errno other.now }
{
    match errno {
        1 => "EPERM",
        2 => "ENOENT",
        4 => "EINTR",
        5 => "EIO",
        6 => "ENXIO",
        9 => "EBADF",
        11 => "EAGAIN",
        12 => "ENOMEM",
        13 => "EACCES",
        16 => "EBUSY",
        17 => "EEXIST",
        18 => "EXDEV",
        19 => "ENODEV",
        _ => other,
    }
}

fn middle_name(errno: u32, other: &'static str) -> &'static str
    ensures { result.now ≡ middle_name errno other.now }
{
    match errno {
        20 => "ENOTDIR",
        21 => "EISDIR",
        22 => "EINVAL",
        23 => "ENFILE",
        24 => "EMFILE",
        26 => "ETXTBSY",
        27 => "EFBIG",
        28 => "ENOSPC",
        29 => "ESPIPE",
        30 => "EROFS",
        31 => "EMLINK",
        36 => "ENAMETOOLONG",
        38 => "ENOSYS",
        39 => "ENOTEMPTY",
        _ => other,
    }
}

fn high_name(errno: u32, other: &'static str) -> &'static str
    ensures { result.now ≡ high_name errno other.now }
{
    match errno {
        40 => "ELOOP",
        75 => "EOVERFLOW",
        95 => "EOPNOTSUPP",
        110 => "ETIMEDOUT",
        116 => "ESTALE",
        121 => "EREMOTEIO",
        122 => "EDQUOT",
        _ => other,
    }
}
