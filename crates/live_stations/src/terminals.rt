//! Where stations type and read.

ghost use Rattle.std.specs.Prelude.{◌≡◌, [], ℕ, List, Option, IfSome};

use live_day::Keyboard;
use std::alloc::Global;
use std::io::Write;

/// Where stations type their lines and read their answers.
pub trait Terminals {
    /// Where a station's lines are typed.
    type Keyboard: Keyboard + Send + Drop;

    /// Where a station's answers are printed.
    type Screen: Write + Send + Drop;

    // the text that a station types, where it is known
    ghost types: { Self → ℕ → Option (List ℕ) };

    // what stands on a station's screen as it is opened, where that is known
    ghost reads: { Self → ℕ → Option (List ℕ) };

    /// Opens where a station types, and may wait until somebody is there. `None` where it can't be opened.
    fn open_keyboard(&self, alloc: Global, station: u32) -> Option<Self::Keyboard>
        ensures untyped { IfSome result (λ keyboard. Self.Keyboard.typed keyboard ≡ []) }
        ensures text { IfSome result (λ keyboard. Self.Keyboard.text_left keyboard ≡ types self.now station) };

    /// Opens where a station reads, and may wait until somebody is there. `None` where it can't be opened.
    fn open_screen(&self, alloc: Global, station: u32) -> Option<Self::Screen>
        ensures text { IfSome result (λ screen. Self.Screen.contents screen ≡ reads self.now station) };
}
