// What needs that a closure may be called, as every closure may that asks for nothing itself.
ghost use Rattle.std.specs.Prelude.{◌≡◌};
ghost use Rattle.std.specs.Fn.{FnOnceReturnsAtMut};
ghost use Rattle.bitio_window.specs.declared.Window.{Window};
ghost use Rattle.bitio_window.specs.Answers.{answer};
ghost use Rattle.bitio_window.specs.Windows.{window_at};
ghost use Rattle.exports_words.specs.Words.{words};

use crate::values::Value;
use crate::words;
use crate::words::Words;
use bitio_window::{BitError, Window};

// What a call answers at a window, with the window where it leaves it.
pub fn of_call<T: Value, F: FnOnce(&mut Window) -> Result<T, BitError>>(
    start: u64,
    position: u64,
    length: u64,
    call: F,
) -> Words
    requires { F.IsAlwaysCallable call }
    ensures { (read : _) × (left : Window)
        × FnOnceReturnsAtMut F.FnOnce call (window_at start position length) read left
        × (result ≡ words T.words (answer read left)) }
{
    let mut w = words::window_at(start, position, length);
    let read = call(&mut w);
    words::of_read(read, w)
}
