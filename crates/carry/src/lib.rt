// Carrying a mark from one form to the other (document 02, F-6): an old mark, of the form before request F-5, with its
// sheet gives the new mark of the same search, and the other way. Rules 1 to 8, 14 to 17, 13.
#![tactic(auto)]

ghost use Rattle.std.specs.Prelude.{◌≡◌};
ghost use Rattle.search.specs.declared.Form.TheVariants.{Old, New};
ghost use Rattle.carry.specs.Carry.{carry_answer, carry_output};

use refusal::Refusal;
use search::Form;

// Restores the search of a mark in one form, on the molecule of a sheet, and saves it in another: rules 1 to 8, 14 to
// 17, 13.
fn carry(sheet: &[u8], mark: &[u8], from: Form, to: Form, out: &mut [u8]) -> Result<usize, Refusal>
    ensures { (result ≡ carry_answer from to sheet.now mark.now out.old) ×
        (out.new ≡ carry_output from to sheet.now mark.now out.old) }
{
    let m = sheet::read_sheet(sheet)?;
    let q = mark_reader::restore_in(m, mark, from)?;
    mark_writer::save_in(m, q, to, out)
}

// An old mark and its sheet give the new mark of the same search: rules 1 to 8, 14 to 17, 13.
pub fn carry_over(sheet: &[u8], old_mark: &[u8], mark: &mut [u8]) -> Result<usize, Refusal>
    ensures { let old = old_mark.now in
        (result ≡ carry_answer Old New sheet.now old mark.old) ×
        (mark.new ≡ carry_output Old New sheet.now old mark.old) }
{
    carry(sheet, old_mark, Form::Old, Form::New, mark)
}

// A new mark and its sheet give the old mark of the same search: rules 1 to 8, 14 to 17, 13.
pub fn carry_back(sheet: &[u8], mark: &[u8], old_mark: &mut [u8]) -> Result<usize, Refusal>
    ensures { let old = old_mark.old in
        (result ≡ carry_answer New Old sheet.now mark.now old) ×
        (old_mark.new ≡ carry_output New Old sheet.now mark.now old) }
{
    carry(sheet, mark, Form::New, Form::Old, old_mark)
}
