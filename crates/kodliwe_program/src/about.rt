//! The texts about the program that its options print.
ghost use Rattle.std.specs.Prelude.{◌≡◌, OnOk};
ghost use Rattle.std.specs.Io.KnownBytes.{Appends};
ghost use Rattle.kodliwe_program.specs.About.{about_text};

use crate::embedded::{BASH, FISH, MANUAL, ZSH};
use crate::help::HELP;
use crate::version::VERSION;
use std::io;
use std::io::Write;

/// A shell that can complete the options.
#[derive(Clone, Copy, Drop)]
pub enum Shell {
    Bash,
    Zsh,
    Fish,
}

/// A text about the program.
#[derive(Clone, Copy, Drop)]
pub enum About {
    Help,
    Version,
    Manual,
    Completions(Shell),
}

impl About {
    /// Returns the text.
    fn text(self) -> &'static str
        ensures { result.now ≡ about_text self }
    {
        match self {
            About::Help => HELP,
            About::Version => VERSION,
            About::Manual => MANUAL,
            About::Completions(Shell::Bash) => BASH,
            About::Completions(Shell::Zsh) => ZSH,
            About::Completions(Shell::Fish) => FISH,
        }
    }

    /// Writes the text. Fails if the writer fails.
    pub fn write<W: Write>(self, output: &mut W) -> io::Result<()>
        ensures { OnOk result (Appends (W.contents output.old) (W.contents output.new)
            (about_text self)) }
    {
        output.write_all(self.text().as_bytes())
    }
}
