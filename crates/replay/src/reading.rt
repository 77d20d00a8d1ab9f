// Reading what is recorded: a window that moves over the input, and a reader of what it holds.
ghost use Rattle.std.specs.Prelude.{◌≡◌, length, IfSome};
ghost use Rattle.std.specs.Iterator.{at_most};

use color::Color;
use image::Size;
use runner::{KeyingAction, RunnerConfig};
use std::alloc::{AllocError, Global};
use std::io::{self, Read};

// How many bytes a window holds.
const WINDOW: usize = 81920;

// No case has more bytes.
const LONGEST: usize = 69632;

// A part of the input, of which the bytes before `at` have been read. It takes the same memory for an input of any
// length.
#[derive(Drop)]
pub(crate) struct Window {
    bytes: Vec<u8>,
    at: usize,
}

impl Window {
    // A window over the beginning of the input.
    pub fn new<R: Read>(alloc: Global, input: &mut R) -> io::Result<Self> {
        let mut window = Window {
            bytes: Vec::new(alloc),
            at: 0,
        };
        window.refill(input)?;
        Ok(window)
    }

    // Where fewer bytes are left than the longest case has, drops those that have been read, and fills the window up.
    pub fn refill<R: Read>(&mut self, input: &mut R) -> io::Result<()> {
        let Some(left) = self.bytes.len().checked_sub(self.at) else {
            return Ok(());
        };
        if LONGEST <= left {
            return Ok(());
        }
        self.bytes.copy_within(self.at.., 0);
        self.bytes.truncate(left);
        self.at = 0;
        input
            .take((WINDOW - left) as u64)
            .read_to_end(&mut self.bytes)?;
        Ok(())
    }

    // The number at the beginning of the input. One that the input breaks off in is read as if zeros followed, one that
    // is longer than a window as 0, and nothing is left after either.
    pub fn first_number(&mut self) -> Result<u32, AllocError> {
        let held = self.bytes.len();
        self.bytes.resize(WINDOW, 0)?;
        let mut reader = Reader::new(&self.bytes);
        let number = reader.number();
        let at = match number {
            Some(_) => WINDOW.saturating_sub(reader.left_over()),
            None => WINDOW + 1,
        };
        self.bytes.truncate(held);
        self.at = at;
        Ok(number.unwrap_or(0))
    }

    // What is left to be read.
    pub fn rest(&self) -> &[u8] {
        self.bytes.get(self.at..).unwrap_or(&[])
    }

    // Leaves the last `left` bytes to be read.
    pub fn keep(&mut self, left: usize) {
        self.at = self.bytes.len().saturating_sub(left);
    }
}

// What is left to be read. Where something is not whole, the answer is `None`.
#[derive(Clone, Copy)]
pub(crate) struct Reader<'a> {
    rest: &'a [u8],
}

impl<'a> Reader<'a> {
    // A reader of all of these bytes.
    pub fn new(rest: &'a [u8]) -> Self {
        Reader { rest }
    }

    // How many bytes are left.
    pub fn left_over(&self) -> usize {
        self.rest.len()
    }

    // The next n bytes.
    pub fn bytes(&mut self, n: usize) -> Option<&'a [u8]>
        ensures { IfSome result (λ bytes. length bytes.now ≡ n) }
    {
        self.rest.split_off(..n)
    }

    // An unsigned LEB128 number: seven bits a byte, the lowest first. No recorded one has more than five bytes; further
    // ones go round to the lowest bits again.
    pub fn number(&mut self) -> Option<u32> {
        let mut value = 0;
        let mut shift: u32 = 0;
        for _ in 0..self.rest.len() {
            let byte = *self.rest.split_off_first()?;
            value |= u32::from(byte % 128).wrapping_shl(shift);
            if byte < 128 {
                return Some(value);
            }
            shift = shift.wrapping_add(7);
        }
        None
    }

    // A number that is recorded by its 32-bit two's complement.
    pub fn signed(&mut self) -> Option<i32> {
        self.number().map(|number| number.cast_signed())
    }

    // A channel of a colour; recorded ones are below 256.
    pub fn channel(&mut self) -> Option<u8> {
        self.number().map(|number| (number % 256) as u8)
    }

    // A colour.
    pub fn color(&mut self) -> Option<Color> {
        Some(Color {
            r: self.channel()?,
            g: self.channel()?,
            b: self.channel()?,
            a: self.channel()?,
        })
    }

    // A keying action.
    pub fn keying_action(&mut self) -> Option<KeyingAction> {
        self.number().map(KeyingAction::from)
    }

    // Settings.
    pub fn config(&mut self) -> Option<RunnerConfig> {
        Some(RunnerConfig {
            is_same_color_a: self.signed()?,
            is_same_color_b: self.signed()?,
            hierarchical: self.number()?,
            good_min_area: self.number()?,
            good_max_area: self.number()?,
            hollow_neighbours: self.number()?,
            deepen_diff: self.signed()?,
            key_color: self.color()?,
            keying_action: self.keying_action()?,
        })
    }

    // Columns and rows.
    pub fn size(&mut self) -> Option<Size> {
        Some(Size {
            w: self.number()?,
            h: self.number()?,
        })
    }

    // The next `count` numbers.
    pub fn numbers(&mut self, count: usize) -> Option<Numbers<'a>>
        ensures { IfSome result (λ numbers. numbers.count ≡ count) }
    {
        let reader = *self;
        for _ in 0..count {
            self.number()?;
        }
        Some(Numbers { reader, count })
    }
}

// Recorded numbers, each of which is read when it is asked for.
#[derive(Clone, Copy)]
pub(crate) struct Numbers<'a> {
    reader: Reader<'a>,
    count: usize,
}

impl Numbers<'_> {
    // How many they are.
    pub fn len(&self) -> usize
        ensures { result ≡ self.now.count }
    {
        self.count
    }
}

impl Iterator for Numbers<'_> {
    type Item = u32;

    ghost remaining = { λ s. at_most s.count };

    // The next number.
    fn next(&mut self) -> Option<u32> {
        if self.count == 0 {
            return None;
        }
        self.count -= 1;
        self.reader.number()
    }
}
