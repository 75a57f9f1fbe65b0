//! Numbers that may be given: those that were released, and then the next one that was never given.
ghost use Rattle.std.specs.Prelude.{◌≡◌, ◌<◌, ◌+◌, ◌^◌, [], vec_capacity};
ghost use Rattle.ad_signature.specs.Spare.{spare_number, IsTaken};

// The number that is given next.
pub(crate) fn peek(free: &Vec<u32>, next: u32) -> u32
    ensures { result ≡ spare_number free.now.items next }
{
    free.last().copied().unwrap_or(next)
}

// Takes that number.
pub(crate) fn take(free: &mut Vec<u32>, next: u32) -> u32
    requires { free.old.items ≡ [] → next + 1 < 2 ^ 32 }
    ensures taken { IsTaken free.old.items next (spare_number free.old.items next) free.new.items result }
    ensures room { vec_capacity free.new ≡ vec_capacity free.old }
{
    match free.pop() {
        Some(_) => next,
        None => next + 1,
    }
}
