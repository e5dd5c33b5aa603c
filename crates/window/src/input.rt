// A file's input: a buffer with the window on the bytes of it that are left.
ghost use Rattle.std.specs.Prelude.{◌≡◌, false, ◌≤◌, length};
ghost use Rattle.window.specs.Window.{empty_window, Within, left_of, unread, low_of, used_of, failed_by, ToppedUp};

use crate::{Read, Window};
use std::io;
use std::io::Write;

// A buffer of so many bytes, and the window on those that are read from the file and not used up.
#[derive(Drop)]
pub struct Input<const N: usize> {
    pub buffer: [u8; N],
    pub window: Window,
    pub ghost size: { length buffer ≡ N },
    pub ghost within: { Within window N },
}

impl<const N: usize> Input<N> {
    // No byte is read.
    pub fn empty() -> Input<N>
        ensures { result.window ≡ empty_window }
    {
        Input {
            buffer: [0; N],
            window: Window::empty(),
        }
    }

    // Whether it is to be topped up, for steps that look at `most` bytes at the most.
    pub fn low(&self, most: usize) -> bool
        ensures { result ≡ low_of most self.now.window }
    {
        self.window.low(most)
    }

    // The bytes that are left.
    pub fn unread(&self) -> &[u8]
        ensures value { result.now ≡ unread self.now.buffer self.now.window }
        ensures len { length result.now ≡ left_of self.now.window }
    {
        self.window.unread(&self.buffer)
    }

    // So many of them are used up.
    pub fn use_up(&mut self, count: usize)
        requires { count ≤ left_of self.old.window }
        ensures window { self.new.window ≡ used_of count self.old.window }
        ensures buffer { self.new.buffer ≡ self.old.buffer }
    {
        self.window = self.window.used(count);
    }

    // Tops it up for steps that look at `most` bytes at the most, and says why where its file can't be read; answers the last read.
    pub fn top_up<R: io::Read, E: Write>(
        &mut self,
        file: &mut R,
        err: &mut E,
        name: &[u8],
        most: usize,
    ) -> Read
        requires { most ≤ N }
        ensures topped_up { ToppedUp most self.old.buffer self.old.window self.new.buffer
            (record { window = self.new.window; last = result }) }
        ensures not_low { failed_by result ≡ false → low_of most self.new.window ≡ false }
    {
        let topped = crate::topped_up(file, err, name, &mut self.buffer, self.window, most);
        self.window = topped.window;
        topped.last
    }
}
