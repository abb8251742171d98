// The worked cases of the whole product, proved together.
#![tactic(auto)]

ghost use Rattle.std.specs.Prelude.{◌≡◌, [], ◌∷◌};
ghost use Rattle.cases.specs.CellCases.{CellCases, end_bay_seen};
ghost use Rattle.cases.specs.WorkedCases.{WorkedCases};

use code::cases::end_bay_code_stands;

// The worked cases of the cell.
pub fn cell_cases_hold()
    ensures { CellCases }
{}

// The steps in which a cell marks three bays by the end-bay table.
pub fn end_bay_steps() -> u32
    ensures { result ≡ (end_bay_seen 7 3 8 1 (87 ∷ [])).steps }
{
    cell_cases_hold();
    87
}

// All worked cases, as one list.
pub fn worked_cases_hold()
    ensures { WorkedCases }
{
    walk::cases::worked_cases_hold();
    end_bay_code_stands();
    cell_cases_hold();
}
