// Sheets on byte slices, for C.
#![tactic(auto)]

ghost use Rattle.std.specs.Prelude.{◌≡◌, length};
ghost use Rattle.octets.specs.Stores.{put, bytes_of_each};
ghost use Rattle.octets.specs.Words.{split, bytes8};
ghost use Rattle.sheet.specs.Sheets.{adding_refusal_of};
ghost use Rattle.controller.specs.Boundary.{Told};
ghost use Rattle.sheets.specs.SheetBytes.{sheet_bytes, totals_in, sheet_in, added_bytes};

use refusals::Refusal;
use sheet::{Run, Sheet};

fn totals_in(bytes: &[u8; 146]) -> [usize; 16]
    ensures { result ≡ totals_in bytes.now 16 }
{
    let mut totals = [0; 16];
    for (i, total) in totals.iter_mut().enumerate() {
        *total = octets::eight(bytes, 8 * i);
    }
    totals
}

#[tactic(auto, unfolding(crate::specs::SheetBytes::sheet_in))]
fn sheet_in(bytes: &[u8; 146]) -> Sheet
    ensures { result ≡ sheet_in bytes.now }
{
    let run = Run {
        high: octets::eight(bytes, 128),
        low: octets::eight(bytes, 136),
        met: bytes[144],
        fct: bytes[145],
    };
    Sheet {
        totals: totals_in(bytes),
        run,
    }
}

fn put_totals(out: &mut [u8; 146], totals: [usize; 16])
    ensures { (out.new ≡ put out.old 0 (bytes_of_each (split bytes8) totals)) × (length totals ≡ 16) }
{
    for (i, total) in totals.iter().enumerate() {
        putting::put8(out, 8 * i, *total);
    }
}

fn put_sheet(out: &mut [u8; 146], sheet: Sheet)
    ensures { out.new ≡ sheet_bytes sheet }
{
    put_totals(out, sheet.totals);
    putting::put8(out, 128, sheet.run.high);
    putting::put8(out, 136, sheet.run.low);
    putting::put_bytes(out, 144, &[sheet.run.met, sheet.run.fct]);
}

// A log's entries added to the sheet in 146 lent bytes: 1 for another length, then 28, 29, then 12 for a sheet that cannot go on.
// Refused, not one byte is written.
#[unsafe(no_mangle)]
pub extern "C" fn spindlewren_sheet(bytes: &[u8], out: &mut [u8]) -> u8
    ensures { Told 146 (adding_refusal_of (sheet_in out.old) bytes.now) (added_bytes bytes.now out.old) out.old out.new result }
{
    let Some(out) = out.as_mut_array::<146>() else {
        return Refusal::Length.number();
    };
    match sheet::add(sheet_in(out), bytes) {
        Ok(sheet) => {
            put_sheet(out, sheet);
            0
        }
        Err(why) => Refusal::from(why).number(),
    }
}
