//! What a number says of its program.
ghost use Rattle.std.specs.Prelude.{◌≡◌};
ghost use Rattle.mr_gen.specs.Generated.{is_resetting, rounds_of, workers_of};

/// How many worker threads the program of a number starts: from 2 to 8.
pub fn workers(number: u64) -> u32
    ensures { result ≡ workers_of number }
{
    2 + (number % 7) as u32
}

/// How often each of them adds to the counter: from 1 to 1024.
pub fn rounds(number: u64) -> u32
    ensures { result ≡ rounds_of number }
{
    1 + (number / 7 % 1024) as u32
}

/// Whether each of them sets the counter to 0 at its end, without the lock.
pub fn is_resetting(number: u64) -> bool
    ensures { result ≡ is_resetting number }
{
    number % 2 == 1
}
