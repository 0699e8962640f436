// Prints the reports of the messages on standard input, a line each: start, end, answer, detail, value and noise; behind one with answer 0,
// the four bytes that come with its record. Each is asked of a cursor, which then stands at its end.
#![tactic(auto)]

ghost use Rattle.answers.specs.Table.{four};
ghost use Rattle.text.specs.Text.{Holds};
ghost use Rattle.listing.specs.Listing.{line};
ghost use Rattle.cursor_main.specs.Records.{record_line};

use cursor::Cursor;
use messages::kinds::MASTER;
use reading::recording::Reading;
use reading::walking::Report;
use std::io;
use std::io::Write;
use text::{Text, input};

// A report's line, alone.
fn put_report(text: &mut Text, r: Report)
    ensures { Holds (line r.start r.end r.outcome r.noise) text.old text.new }
{
    text.clear();
    listing::put_report(text, r);
}

// The line of the bytes that come with a record, alone.
fn put_record(text: &mut Text, r: Reading)
    ensures { Holds (record_line (four r.bytes)) text.old text.new }
{
    text.clear();
    let [first, second, third, last] = r.bytes;
    text.put(b"record ");
    text.put_spaced(&[first as usize, second as usize, third as usize]);
    text.put_number(last as usize, b'\n');
}

// The record of the message at a cursor.
fn print_record(cursor: Cursor, text: &mut Text, out: &mut impl Write) -> io::Result<()> {
    let mut buffer = [0u8; MASTER];
    put_record(
        text,
        cursor::read_from(cursor.input, cursor.place(), &mut buffer),
    );
    out.write_all(text.as_bytes())
}

// A report of the message at a cursor, and its record if it has one.
fn print_report(
    cursor: Cursor,
    r: Report,
    text: &mut Text,
    out: &mut impl Write,
) -> io::Result<()> {
    put_report(text, r);
    out.write_all(text.as_bytes())?;
    if r.outcome.is_done() {
        print_record(cursor, text, out)?;
    }
    Ok(())
}

// The reports of an input. Each message has a byte at least, so there are no more than bytes.
fn print_reports(s: &[u8], text: &mut Text, out: &mut impl Write) -> io::Result<()> {
    let mut cursor = Cursor::over(s);
    for _ in 0..s.len() {
        let r = cursor::report_from(cursor.input, cursor.place());
        if !r.is_found() {
            return Ok(());
        }
        print_report(cursor, r, text, out)?;
        cursor = cursor.moved(r.end);
    }
    Ok(())
}

fn main(rt: HostRuntime) -> io::Result<()> {
    let mut all = [0u8; listing::MOST + 1];
    let n = input::read_full(&mut rt.stdin(), &mut all)?;
    let mut room = [0u8; 4096];
    let mut text = Text::new(&mut room, 0);
    let mut out = rt.stdout();
    if listing::MOST < n {
        listing::put_too_long(&mut text);
        return out.write_all(text.as_bytes());
    }
    print_reports(&all[..n], &mut text, &mut out)
}
