//! The window that FOR SYSTEM_TIME gives.

ghost use Rattle.std.specs.Prelude.{◌≡◌};
ghost use Rattle.statement_resolution.specs.SystemWindows as words;

use period_core::Window;
use sql_statements::SystemTime;

/// The window that a table reference asks for: without FOR SYSTEM_TIME the current versions.
pub fn window_of(window: &Option<SystemTime>) -> Window
    ensures { result ≡ words.window_of window.now }
{
    match window {
        None => Window::Now,
        Some(SystemTime::AsOf(moment)) => Window::AsOf(moment.moment()),
        Some(SystemTime::FromTo(from, to)) => Window::FromTo(*from, *to),
        Some(SystemTime::Between(from, last)) => Window::Between(*from, *last),
    }
}
