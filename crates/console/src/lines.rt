// Lines out of standard input, through a buffer.
use std::io::{Read, Stdin};

// Bytes that a line is read for: every loop has to end, and no line comes near so many.
const BUDGET: usize = 1_099_511_627_776;

// What is read and not yet taken: the bytes of the buffer from `at` to `end`.
#[derive(Drop)]
pub struct Source<'a> {
    pub stdin: Stdin,
    pub buffer: &'a mut [u8],
    pub at: usize,
    pub end: usize,
}

impl<'a> Source<'a> {
    pub fn is_taken(&self) -> bool {
        self.end <= self.at
    }

    // How many bytes of the next line its room holds: as many as there is room for. There is none where the input ended before a byte of it;
    // a last line without a newline counts.
    pub fn line(&mut self, room: &mut [u8]) -> Option<usize> {
        let mut length = 0;
        let mut left = BUDGET;
        for _ in 0..BUDGET {
            // The buffer is read into anew once it is all taken. If it is all taken still, the input has ended, or cannot be read any more.
            if self.is_taken() {
                self.at = 0;
                self.end = self.stdin.read(self.buffer).unwrap_or(0);
            }
            let (at, end) = (self.at, self.end);
            if end <= at || self.buffer.len() < end {
                break;
            }
            let end = end.min(at.saturating_add(left));
            let rest = &self.buffer[at..end];
            for (i, b) in rest.iter().enumerate() {
                if *b == b'\n' {
                    self.at = at + i + 1;
                    return Some(length);
                }
                if length < room.len() {
                    room[length] = *b;
                    length += 1;
                }
            }
            self.at = end;
            left = left.saturating_sub(end.saturating_sub(at));
            if left == 0 {
                break;
            }
        }
        if length == 0 { None } else { Some(length) }
    }
}
