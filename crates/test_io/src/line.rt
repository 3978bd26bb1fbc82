// Text lines that are put together before they are written, so that each takes one write.
ghost use Rattle.std.specs.Prelude.{◌≡◌, ◌≤◌, [], Some, take};

use std::io::{self, Write};

// A line so far: the first end bytes. 54 hold a word of 32, a space, a number of 20 digits and a newline.
#[derive(Drop)]
pub struct Line {
    bytes: [u8; 54],
    end: usize,
    ghost within: { end ≤ 54 },
}

impl Line {
    pub fn new() -> Line
        ensures { take result.end result.bytes ≡ [] }
    {
        Line {
            bytes: [0; 54],
            end: 0,
        }
    }

    pub fn text(&self) -> &[u8]
        ensures { result.now ≡ take self.now.end self.now.bytes }
    {
        &self.bytes[..self.end]
    }
}

impl Write for Line {
    ghost contents = { λ l. Some (take l.end l.bytes) };

    // As many bytes as there is room for.
    fn write(&mut self, buf: &[u8]) -> io::Result<usize> {
        let n = buf.len().min(self.bytes.len() - self.end);
        self.bytes[self.end..self.end + n].copy_from_slice(&buf[..n]);
        self.end += n;
        Ok(n)
    }

    fn flush(&mut self) -> io::Result<()> {
        Ok(())
    }
}

#[cfg(test)]
mod tests {
    use super::*;

    // No contract says that the longest line has room: too little would make it an error.
    #[test]
    fn longest_line_has_room(rt: HostRuntime) {
        let mut output = Line::new();
        let written = crate::print_number(&mut output, &[b'w'; 32], u64::MAX);
        assert!(rt; written.is_ok(), "the longest line was refused");
        assert!(rt;
            output.text() == b"wwwwwwwwwwwwwwwwwwwwwwwwwwwwwwww 18446744073709551615\n".as_slice(),
            "the longest line is another"
        );
    }
}
