//! When words are coloured: what `--color` says, and what is known of the terminal.
ghost use Rattle.std.specs.Prelude.{◌≡◌};
ghost use Rattle.hugepool.specs.Colouring.{paints};

use crate::shown::shown_at;
use hp_command::{Asked, When};
use hp_paint::Palette;
use std::env;
use std::env::VarError;
use std::io::IsTerminal;

/// What is known of standard output and its terminal.
#[derive(Clone, Copy, Debug)]
struct Surroundings {
    is_terminal: bool,
    /// `NO_COLOR` is set, and not empty.
    no_color: bool,
    /// `TERM` is `dumb`.
    is_dumb: bool,
}

// Whether words are coloured there.
fn paints(when: When, around: Surroundings) -> bool
    ensures { result ≡ paints when around }
{
    match when {
        When::Auto => around.is_terminal && !around.no_color && !around.is_dumb,
        When::Always => true,
        When::Never => false,
    }
}

// Whether a variable is set, and not empty. One that can't be read counts as set.
fn is_set(value: Result<String, VarError>) -> bool {
    match value {
        Ok(text) => !text.is_empty(),
        Err(VarError::NotPresent) => false,
        Err(_) => true,
    }
}

// Whether a terminal of that name knows no sequences.
fn is_dumb(value: Result<String, VarError>) -> bool {
    match value {
        Ok(name) => name.as_str() == "dumb",
        Err(_) => false,
    }
}

fn look_around(rt: &HostRuntime) -> Surroundings {
    Surroundings {
        is_terminal: rt.stdout().is_terminal(),
        no_color: is_set(env::var(rt, "NO_COLOR")),
        is_dumb: is_dumb(env::var(rt, "TERM")),
    }
}

/// The words that are coloured in what is asked for, if any are. If nothing is, or objects of JSON, none are.
pub(crate) fn chosen_palette(
    rt: &HostRuntime,
    asked: &Result<Asked, clap::Error>,
) -> Option<Palette> {
    match asked {
        Ok(asked) if !asked.is_json && paints(asked.colours, look_around(rt)) => {
            shown_at(&asked.request).palette
        }
        _ => None,
    }
}
