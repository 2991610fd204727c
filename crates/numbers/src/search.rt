// A search for the last number that keeps a test.
ghost use Rattle.std.specs.Prelude.{◌<◌, ℕ};
ghost use Rattle.numbers.specs.Searched.{IsLastKeeping};

// By halving, below `beyond`: a number that keeps the test, or 0 untested, and the next does not, or is `beyond`. Of a test that smaller
// numbers keep too it is the last. The 0 is kept as it is: it is the number meant. The test must take every number below
// `beyond`, which is not 0.
pub fn last_keeping<F: Fn(u64) -> bool>(beyond: u64, keeps: F) -> u64
    requires beyond_nonzero { 0 < beyond }
    requires callable { (n : ℕ) → n < beyond → F.pre keeps n }
    ensures { IsLastKeeping (F.post keeps) beyond result }
{
    let mut last = 0;
    let mut failing = beyond;
    while last + 1 < failing {
        let middle = last + (failing - last) / 2;
        if keeps(middle) {
            last = middle;
        } else {
            failing = middle;
        }
    }
    last
}
