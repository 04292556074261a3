//! The positions of the lines of a chart in its text.
ghost use Rattle.std.specs.Prelude.{◌≡◌, ◌+◌, ◌*◌, ◌<◌, ◌≤◌};
ghost use Rattle.sched_chart.specs.Sheet.{line_length, place, IsSheet};

// Each line has a name of `width` bytes, a space, the characters of `ticks` ticks, and a line feed.
#[derive(Clone, Copy, Debug, PartialEq, Eq)]
pub struct Sheet {
    pub width: usize,
    pub ticks: usize,
}

impl Sheet {
    // How many bytes `count` lines have.
    pub fn lines(self, count: usize) -> usize
        requires sheet { IsSheet self }
        requires few { count ≤ 129 }
        ensures { result ≡ count * line_length self.width self.ticks }
    {
        count * (self.width + self.ticks + 2)
    }

    // The position of a tick's character in a line; the first line is number 0.
    pub fn place(self, line: usize, tick: usize) -> usize
        requires sheet { IsSheet self }
        requires few { line ≤ 128 }
        requires tick { tick < self.ticks }
        ensures { result ≡ place self.width self.ticks line tick }
    {
        self.lines(line) + (self.width + 1 + tick)
    }
}
