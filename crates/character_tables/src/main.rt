//! Prints the table of characters of the Rust crate, from the kit's crate `unicode`.
//!
//! With no argument it prints the table as Rust source. With an argument it prints one letter for
//! each code point, by which a test compares the table with the crate.
#![tactic(auto)]

use std::io::{BufWriter, Write};
use std::process::ExitCode;
use std::rt::Env;
use std::{env, io};
use unicode::properties::{GeneralCategory, is_grapheme_extend};

/// The code points end before this one.
const END: u32 = 0x11_0000;

const HEAD: &str = "//! General categories and `Grapheme_Extend`, of Unicode 18.0.0.\n\
    // Printed by crates/character_tables from the crate `unicode` of the Rattle kit. The data are\n\
    // under Unicode's licence, in the file LICENSE-UNICODE of this package.\n";

/// A property of characters that has a table.
#[derive(Clone, Copy)]
enum Property {
    Category,
    GraphemeExtend,
}

/// Returns the number of a category in the table, or 0 if no literal needs it.
fn category_number(category: GeneralCategory) -> u8 {
    match category {
        GeneralCategory::SpaceSeparator => 1,
        GeneralCategory::LineSeparator => 2,
        GeneralCategory::ParagraphSeparator => 3,
        GeneralCategory::Control => 4,
        GeneralCategory::Format => 5,
        GeneralCategory::Surrogate => 6,
        GeneralCategory::PrivateUse => 7,
        GeneralCategory::Unassigned => 8,
        _ => 0,
    }
}

impl Property {
    /// Returns the name of the property's table.
    fn name(self) -> &'static str {
        match self {
            Property::Category => "CATEGORIES",
            Property::GraphemeExtend => "GRAPHEME_EXTEND",
        }
    }

    /// Returns the number that a code point has in the table. No `char` is a surrogate.
    fn number(self, code: u32) -> u8 {
        let Some(c) = char::from_u32(code) else {
            return match self {
                Property::Category => category_number(GeneralCategory::Surrogate),
                Property::GraphemeExtend => 0,
            };
        };
        match self {
            Property::Category => category_number(GeneralCategory::for_char(c)),
            Property::GraphemeExtend => u8::from(is_grapheme_extend(c)),
        }
    }
}

/// Returns the table's entry for a run of code points: 32 times the code point after the run, plus
/// the run's number.
fn word(end: u32, number: u8) -> u64 {
    u64::from(end) * 32 + u64::from(number)
}

/// Prints a property's table, an entry for each run of code points with one number.
fn print_table<W: Write>(property: Property, output: &mut W) -> io::Result<()> {
    write!(
        output,
        "\npub(super) static {}: &[u32] = &[\n",
        property.name()
    )?;
    let mut current = property.number(0);
    for code in 0..END {
        let number = property.number(code);
        if number != current {
            write!(output, "{}, ", word(code, current))?;
            current = number;
        }
    }
    write!(output, "{}\n];\n", word(END, current))
}

fn print_tables<W: Write>(output: &mut W) -> io::Result<()> {
    output.write_all(HEAD.as_bytes())?;
    print_table(Property::Category, output)?;
    print_table(Property::GraphemeExtend, output)?;
    output.flush()
}

/// Prints a letter for each code point: the first nine are the categories' without
/// `Grapheme_Extend`, the next nine the categories' with it.
fn print_letters<W: Write>(output: &mut W) -> io::Result<()> {
    for code in 0..END {
        let category = Property::Category.number(code);
        let letter = if Property::GraphemeExtend.number(code) == 0 {
            category.saturating_add(b'A')
        } else {
            category.saturating_add(b'J')
        };
        output.write_all(&[letter])?;
    }
    output.flush()
}

fn run(rt: &HostRuntime) -> io::Result<()> {
    let has_argument = env::args(rt)?.len() > 1;
    let mut output = BufWriter::new(rt.alloc(), rt.stdout().lock())?;
    if has_argument {
        print_letters(&mut output)
    } else {
        print_tables(&mut output)
    }
}

fn main(rt: HostRuntime) -> ExitCode {
    match run(&rt) {
        Ok(()) => ExitCode::from(0),
        Err(error) => {
            let _ = eprintln!(rt; "character_tables: {error}");
            ExitCode::from(1)
        }
    }
}
