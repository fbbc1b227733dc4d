// What the program prints of bits and numbers.
ghost use Rattle.std.specs.Prelude.{◌≡◌, [], ◌∷◌, ◌++◌, All, IfOk, IsSome, OnOk, encode_utf8_all, map, unwrap_or};
ghost use Rattle.std.specs.List.{flat_map};
ghost use Rattle.std.specs.String.{string_bytes};
ghost use Rattle.desk.specs.Texts.{bit_digit, bits_shown, cells_shown, numbers_of, step_line, steps_lines, symbols_shown, values_shown};

use cells::Cell;
use std::alloc::{AllocError, Global};
use std::fmt::Display;

// Bits as one word, in sending order.
fn bits_text(heap: Global, bits: &[bool]) -> Result<String, AllocError>
    ensures { IfOk result (λ text. string_bytes text ≡ encode_utf8_all (map bit_digit bits.now)) }
{
    bits.iter()
        .map(|bit| if *bit { '1' } else { '0' })
        .collect(heap)
}

// Numbers, a space before each.
fn numbers_text<T: Display>(heap: Global, numbers: &[T]) -> Result<String, AllocError>
    ensures { IfOk result (λ text. All (λ n. IsSome (T.output n)) numbers.now →
        string_bytes text ≡ flat_map (λ n. 32 ∷ unwrap_or (T.output n) []) numbers.now) }
{
    let mut text = String::new(heap);
    for n in numbers {
        write!(text, " {n}")?;
    }
    Ok(text)
}

// Numbers of cells, a space before each.
pub fn values_text(heap: Global, values: &[i16]) -> Result<String, AllocError>
    ensures { IfOk result (λ text. string_bytes text ≡ values_shown values.now) }
{
    numbers_text(heap, values)
}

// The two numbers of a cell.
fn numbers_of(cell: &Cell) -> [i16; 2]
    ensures { result ≡ numbers_of cell.now }
{
    [cell.real, cell.imaginary]
}

// The numbers of cells, two a cell.
fn cell_numbers(heap: Global, cells: &[Cell]) -> Result<Vec<i16>, AllocError>
    ensures { IfOk result (λ numbers. numbers.items ≡ flat_map numbers_of cells.now) }
{
    cells.iter().flat_map(numbers_of).collect(heap)
}

// Symbols, a space before each.
fn symbols_text(heap: Global, symbols: &[u8]) -> Result<String, AllocError>
    ensures { IfOk result (λ text. string_bytes text ≡ symbols_shown symbols.now) }
{
    numbers_text(heap, symbols)
}

// The numbers of cells, a space before each.
fn cells_text(heap: Global, cells: &[Cell]) -> Result<String, AllocError>
    ensures { IfOk result (λ text. string_bytes text ≡ cells_shown cells.now) }
{
    numbers_text(heap, &cell_numbers(heap, cells)?)
}

// A stream at every step of sending.
#[derive(Clone, Copy)]
pub struct Steps<'a> {
    pub record: &'a [bool],
    pub scrambled: &'a [bool],
    pub message: &'a [u8],
    pub word: &'a [u8],
    pub cells: &'a [Cell],
}

// Adds the line of a step: the stream's name, a label and what is shown.
fn add_line(text: &mut String, name: &str, label: &str, shown: &str) -> Result<(), AllocError>
    ensures { OnOk result (string_bytes text.new ≡ string_bytes text.old ++ step_line name.now label.now shown.now) }
{
    writeln!(text, "{name}{label}{shown}")
}

// Adds a line of bits.
fn add_bits(
    heap: Global,
    text: &mut String,
    name: &str,
    label: &str,
    bits: &[bool],
) -> Result<(), AllocError>
    ensures { OnOk result (string_bytes text.new ≡ string_bytes text.old ++ step_line name.now label.now (bits_shown bits.now)) }
{
    add_line(text, name, label, &bits_text(heap, bits)?)
}

// Adds a line of symbols.
fn add_symbols(
    heap: Global,
    text: &mut String,
    name: &str,
    label: &str,
    symbols: &[u8],
) -> Result<(), AllocError>
    ensures { OnOk result (string_bytes text.new ≡ string_bytes text.old ++ step_line name.now label.now (symbols_shown symbols.now)) }
{
    add_line(text, name, label, &symbols_text(heap, symbols)?)
}

// Adds a line of cells.
fn add_cells(
    heap: Global,
    text: &mut String,
    name: &str,
    label: &str,
    cells: &[Cell],
) -> Result<(), AllocError>
    ensures { OnOk result (string_bytes text.new ≡ string_bytes text.old ++ step_line name.now label.now (cells_shown cells.now)) }
{
    add_line(text, name, label, &cells_text(heap, cells)?)
}

// A line for each step, with the stream's name.
pub fn steps_text(heap: Global, name: &str, steps: Steps<'_>) -> Result<String, AllocError>
    ensures { IfOk result (λ text. string_bytes text ≡ steps_lines name.now steps.entry) }
{
    let mut text = String::new(heap);
    add_bits(heap, &mut text, name, ": record ", steps.record)?;
    add_bits(heap, &mut text, name, ": scrambled ", steps.scrambled)?;
    add_symbols(heap, &mut text, name, ": message", steps.message)?;
    add_symbols(heap, &mut text, name, ": word", steps.word)?;
    add_cells(heap, &mut text, name, ": cells", steps.cells)?;
    Ok(text)
}
