// The library for C and Rust to link: walk, read, reports, the reader of the cable, test, lookups, ranges and values of parameters, names,
// both edits, all writers, the bank, a unit's step, and the planner with its checker, each the routine itself with its own contract. A
// slice passes as a pointer and a length; a struct goes by value, laid out as C lays it out. A reader's record is held by the caller and
// lent.
#![tactic(auto)]

ghost use Rattle.std.specs.Prelude.{◌≡◌, [], ◌∷◌};
ghost use Rattle.answers.specs.Effect.{Gives, tested};
ghost use Rattle.edits.specs.Edits.{applying, applying_bus};
ghost use Rattle.messages.specs.declared.kinds.Kind.TheVariants.{Dump as of_dump, Short as of_short};
ghost use Rattle.messages.specs.Kinds.{single_patch, split_patch, master_parameters, edit_buffer, remote_edit, bus_edit};
ghost use Rattle.messages.specs.Kinds.{request_data, group_mode, set_bank, unlock_bank, store_edit_buffer};
ghost use Rattle.fields.specs.code.Lookups.{or_none};
ghost use Rattle.fields.specs.Fields.{place_of, parameter_of};
ghost use Rattle.fields.specs.Parameters.{ranging};
ghost use Rattle.names.specs.Names.{naming, showing};
ghost use Rattle.patch.specs.Patch.{patch_rows, holding};
ghost use Rattle.splits.specs.Splits.{split_rows};
ghost use Rattle.edit_lists.specs.Plan.{planning};
ghost use Rattle.edit_lists.specs.Check.{checking};
ghost use Rattle.cable.specs.Cable.{fresh_record, feeding, ending, Leaves};
ghost use Rattle.reading.specs.code.Rooms.{Makes};
ghost use Rattle.reading.specs.code.Told.{walked, reads};
ghost use Rattle.units.specs.Units.{meant_for};
ghost use Rattle.units.specs.code.Steps.{steps};
ghost use Rattle.writing.specs.Writing.{writing, writing_bank};

use answers::{Outcome, Placed};
use cable::{Cable, Fed};
use edits::{Matrix, Remote};
use fields::{BytePlace, Parameter, Range};
use patch::Held;
use reading::listing::Listed;
use reading::recording::Reading;
use reading::walking::Report;
use units::{Step, Unit};

// What C is told where there is none: a byte that no place and no parameter is.
const NONE: u8 = 255;

// A remote edit, whose two bytes C hands over by themselves.
fn remote(parameter: u8, value: u8) -> Remote
    ensures { (result.parameter.0 ≡ parameter) × (result.value ≡ value) }
{
    Remote {
        parameter: Parameter(parameter),
        value,
    }
}

// The walk.
#[unsafe(no_mangle)]
pub extern "C" fn matrix_walk(s: &[u8], place: usize) -> Report
    ensures { result ≡ walked s.now place }
{
    reading::walking::walk(s, place)
}

// Reading a record.
#[unsafe(no_mangle)]
pub extern "C" fn matrix_read(s: &[u8], place: usize, buffer: &mut [u8]) -> Reading
    ensures { Gives (reads s.now place buffer.old) result buffer.new }
{
    reading::recording::read(s, place, buffer)
}

// The reports from a place on.
#[unsafe(no_mangle)]
pub extern "C" fn matrix_reports(s: &[u8], place: usize, room: &mut [usize]) -> Listed
    ensures { Makes s.now place room.old room.new result }
{
    reading::listing::reports(s, place, room)
}

// A reader of the cable at a fresh start.
#[unsafe(no_mangle)]
pub extern "C" fn matrix_cable_fresh() -> Cable
    ensures { result ≡ fresh_record }
{
    cable::fresh()
}

// Feeds a reader, whose record is updated: a thin function over the step by value, as document 02 has it; so the next one.
#[unsafe(no_mangle)]
pub extern "C" fn matrix_cable_feed(state: &mut Cable, input: &[u8]) -> Fed
    ensures { Leaves (feeding state.old input.now) state.new result }
{
    let step = cable::feed(*state, input);
    *state = step.state;
    step.fed
}

// Declares the end to a reader, whose record is updated.
#[unsafe(no_mangle)]
pub extern "C" fn matrix_cable_end(state: &mut Cable) -> Fed
    ensures { Leaves (ending state.old) state.new result }
{
    let step = cable::end(*state);
    *state = step.state;
    step.fed
}

// The test of a patch.
#[unsafe(no_mangle)]
pub extern "C" fn matrix_test_patch(p: &[u8]) -> Outcome
    ensures { result ≡ tested (patch_rows p.now) }
{
    patch::test(p).into()
}

// The test of a split.
#[unsafe(no_mangle)]
pub extern "C" fn matrix_test_split(p: &[u8]) -> Outcome
    ensures { result ≡ tested (split_rows p.now) }
{
    splits::test(p).into()
}

// The byte place of a parameter, 255 where it has none.
#[unsafe(no_mangle)]
pub extern "C" fn matrix_place_of(parameter: u8) -> u8
    ensures { result ≡ or_none (place_of parameter) }
{
    match fields::place_of(Parameter(parameter)) {
        Some(place) => place.0,
        None => NONE,
    }
}

// The parameter of a byte place, 255 where it has none.
#[unsafe(no_mangle)]
pub extern "C" fn matrix_parameter_of(place: u8) -> u8
    ensures { result ≡ or_none (parameter_of place) }
{
    match fields::parameter_of(BytePlace(place)) {
        Some(parameter) => parameter.0,
        None => NONE,
    }
}

// The least and the greatest value of a parameter.
#[unsafe(no_mangle)]
pub extern "C" fn matrix_range_of(parameter: u8) -> Range
    ensures { result ≡ ranging parameter }
{
    fields::range_of(Parameter(parameter)).into()
}

// The value of a parameter in a patch.
#[unsafe(no_mangle)]
pub extern "C" fn matrix_value_of(p: &[u8], parameter: u8) -> Held
    ensures { result ≡ holding parameter p.now }
{
    patch::value_of(p, Parameter(parameter)).into()
}

// Sets the name of a patch.
#[unsafe(no_mangle)]
pub extern "C" fn matrix_set_name(p: &mut [u8], text: &[u8]) -> Outcome
    ensures { Gives (naming p.old text.now) result p.new }
{
    names::set_name(p, text).into()
}

// Writes the eight characters of a patch's name.
#[unsafe(no_mangle)]
pub extern "C" fn matrix_show_name(p: &[u8], out: &mut [u8]) -> Outcome
    ensures { Gives (showing p.now out.old) result out.new }
{
    names::show_name(p, out).into()
}

// Applies a remote edit to a patch.
#[unsafe(no_mangle)]
pub extern "C" fn matrix_apply_edit(p: &mut [u8], parameter: u8, value: u8) -> Outcome
    ensures { Gives (applying parameter value p.old) result p.new }
{
    remote(parameter, value).apply(p).into()
}

// Applies a matrix modulation edit to a patch.
#[unsafe(no_mangle)]
pub extern "C" fn matrix_apply_bus_edit(
    p: &mut [u8],
    bus: u8,
    source: u8,
    amount: u8,
    destination: u8,
) -> Outcome
    ensures { Gives (applying_bus bus source amount destination p.old) result p.new }
{
    let edit = Matrix {
        bus,
        source,
        amount,
        destination,
    };
    edit.apply(p).into()
}

// Writes a numbered patch.
#[unsafe(no_mangle)]
pub extern "C" fn matrix_write_patch(number: u8, p: &[u8], out: &mut [u8]) -> Outcome
    ensures { Gives (writing (of_dump single_patch) (number ∷ []) p.now out.old) result out.new }
{
    writing::write_patch(number, p, out).into()
}

// Writes a numbered split.
#[unsafe(no_mangle)]
pub extern "C" fn matrix_write_split(number: u8, p: &[u8], out: &mut [u8]) -> Outcome
    ensures { Gives (writing (of_dump split_patch) (number ∷ []) p.now out.old) result out.new }
{
    writing::write_split(number, p, out).into()
}

// Writes a patch to the edit buffer.
#[unsafe(no_mangle)]
pub extern "C" fn matrix_write_edit_buffer(p: &[u8], out: &mut [u8]) -> Outcome
    ensures { Gives (writing (of_dump edit_buffer) [] p.now out.old) result out.new }
{
    writing::write_edit_buffer(p, out).into()
}

// Writes master parameters.
#[unsafe(no_mangle)]
pub extern "C" fn matrix_write_master(m: &[u8], out: &mut [u8]) -> Outcome
    ensures { Gives (writing (of_dump master_parameters) [] m.now out.old) result out.new }
{
    writing::write_master(m, out).into()
}

// Writes a remote edit.
#[unsafe(no_mangle)]
pub extern "C" fn matrix_write_edit(parameter: u8, value: u8, out: &mut [u8]) -> Outcome
    ensures { Gives (writing (of_short remote_edit) (parameter ∷ value ∷ []) [] out.old) result out.new }
{
    writing::write_edit(remote(parameter, value), out).into()
}

// Writes a matrix modulation edit.
#[unsafe(no_mangle)]
pub extern "C" fn matrix_write_bus_edit(
    bus: u8,
    source: u8,
    amount: u8,
    destination: u8,
    out: &mut [u8],
) -> Outcome
    ensures { Gives (writing (of_short bus_edit) (bus ∷ source ∷ amount ∷ destination ∷ []) [] out.old) result out.new }
{
    let edit = Matrix {
        bus,
        source,
        amount,
        destination,
    };
    writing::write_bus_edit(edit, out).into()
}

// Writes a request for data.
#[unsafe(no_mangle)]
pub extern "C" fn matrix_write_request_data(kind: u8, number: u8, out: &mut [u8]) -> Outcome
    ensures { Gives (writing (of_short request_data) (kind ∷ number ∷ []) [] out.old) result out.new }
{
    writing::write_request_data(kind, number, out).into()
}

// Writes group mode.
#[unsafe(no_mangle)]
pub extern "C" fn matrix_write_group_mode(total: u8, id: u8, out: &mut [u8]) -> Outcome
    ensures { Gives (writing (of_short group_mode) (total ∷ id ∷ []) [] out.old) result out.new }
{
    writing::write_group_mode(total, id, out).into()
}

// Writes set bank.
#[unsafe(no_mangle)]
pub extern "C" fn matrix_write_set_bank(bank: u8, out: &mut [u8]) -> Outcome
    ensures { Gives (writing (of_short set_bank) (bank ∷ []) [] out.old) result out.new }
{
    writing::write_set_bank(bank, out).into()
}

// Writes unlock bank.
#[unsafe(no_mangle)]
pub extern "C" fn matrix_write_unlock_bank(out: &mut [u8]) -> Outcome
    ensures { Gives (writing (of_short unlock_bank) [] [] out.old) result out.new }
{
    writing::write_unlock_bank(out).into()
}

// Writes store edit buffer.
#[unsafe(no_mangle)]
pub extern "C" fn matrix_write_store_edit_buffer(
    number: u8,
    bank: u8,
    id: u8,
    out: &mut [u8],
) -> Outcome
    ensures { Gives (writing (of_short store_edit_buffer) (number ∷ bank ∷ id ∷ []) [] out.old) result out.new }
{
    writing::write_store_edit_buffer(number, bank, id, out).into()
}

// What a message does to a unit.
#[unsafe(no_mangle)]
pub extern "C" fn matrix_unit_step(unit: Unit, s: &[u8], place: usize) -> Step
    ensures { result ≡ steps unit s.now place }
{
    unit.follow(s, place)
}

// Whether a store message with that ID is meant for a unit.
#[unsafe(no_mangle)]
pub extern "C" fn matrix_unit_meant(unit: Unit, id: u8) -> bool
    ensures { result ≡ meant_for unit id }
{
    unit.meant_for(id)
}

// Writes a bank.
#[unsafe(no_mangle)]
pub extern "C" fn matrix_write_bank(ps: &[u8], out: &mut [u8]) -> Placed
    ensures { Gives (writing_bank ps.now out.old) result out.new }
{
    writing::placed(writing::write_bank(ps, out))
}

// Writes the shortest list of edits that turns one patch into another.
#[unsafe(no_mangle)]
pub extern "C" fn matrix_plan(a: &[u8], b: &[u8], out: &mut [u8]) -> Outcome
    ensures { Gives (planning a.now b.now out.old) result out.new }
{
    planner::plan(a, b, out).into()
}

// Checks a list of edits that is to turn one patch into another.
#[unsafe(no_mangle)]
pub extern "C" fn matrix_check_plan(a: &[u8], b: &[u8], list: &[u8]) -> Outcome
    ensures { result ≡ checking a.now b.now list.now }
{
    checker::check_plan(a, b, list).into()
}
