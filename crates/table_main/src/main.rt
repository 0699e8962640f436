// Prints the field table, a line for each byte of a patch: place, parameter, least and greatest value.
// Every number is asked of the fields crate's lookups.
#![tactic(auto)]

ghost use Rattle.text.specs.Text.{signed, Gains, Holds};
ghost use Rattle.fields.specs.Fields.{value_at, parameter_of};
ghost use Rattle.table_main.specs.Table.{parameter_text, table_row, table_text};

use fields::BytePlace;
use std::io;
use std::io::Write;
use text::Text;

// Bytes of a patch.
const PLACES: u8 = fields::PLACES as u8;

// A place's parameter and a space behind it; a dash where it has none.
fn put_parameter(text: &mut Text, place: u8)
    ensures { Gains (parameter_text (parameter_of place)) text.old text.new }
{
    match fields::parameter_of(BytePlace(place)) {
        Some(parameter) => text.put_number(parameter.0 as usize, b' '),
        None => text.put(b"- "),
    }
}

// The value of a byte at a place, with its sign, and the byte behind it: one line, as in `plan`, since `text` knows no fields.
fn put_value(text: &mut Text, place: u8, b: u8, behind: u8)
    ensures { Gains (signed (value_at place b) behind) text.old text.new }
{
    text.put_signed(isize::from(fields::value_at(BytePlace(place), b)), behind);
}

// A place's line.
fn put_field(text: &mut Text, place: u8)
    ensures { Gains (table_row place) text.old text.new }
{
    text.put_number(place as usize, b' ');
    put_parameter(text, place);
    put_value(text, place, fields::least_of(BytePlace(place)), b' ');
    put_value(text, place, fields::greatest_of(BytePlace(place)), b'\n');
}

// The lines of all places, alone.
fn put_table(text: &mut Text)
    ensures { Holds table_text text.old text.new }
{
    text.clear();
    for place in 0..PLACES {
        put_field(text, place);
    }
}

fn main(rt: HostRuntime) -> io::Result<()> {
    let mut room = [0u8; 4096];
    let mut text = Text::new(&mut room, 0);
    put_table(&mut text);
    rt.stdout().write_all(text.as_bytes())
}
