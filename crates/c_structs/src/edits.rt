// What C gets of an edit.
ghost use Rattle.c_structs.specs.Structs.{host_edit_gave};
ghost use Rattle.std.specs.Prelude.{◌≡◌, []};
ghost use Rattle.edit.specs.Edit.{edit_gave};

use edit::Edit;
use ground::Refusal;

// Rule 7.10: what an edit returns to C, its number, the changed number, and the new counts of rows and of runs.
#[repr(C)]
#[derive(Clone, Copy)]
pub struct WhelkEdit {
    pub number: usize,
    pub changed: u64,
    pub count: usize,
    pub runs: usize,
}

// Rule 7.10: an edit's answer as C gets it. Rule 5.4: of a refused edit its number, and 0 for the rest.
impl From<Result<Edit, Refusal>> for WhelkEdit {
    ghost from_gives = { λ r w. host_edit_gave w [] [] [] [] ≡ edit_gave r [] [] [] [] };

    fn from(r: Result<Edit, Refusal>) -> WhelkEdit {
        match r {
            Ok(edit) => WhelkEdit {
                number: ground::DONE as usize,
                changed: edit.changed,
                count: edit.count,
                runs: edit.runs,
            },
            Err(e) => WhelkEdit {
                number: u32::from(e) as usize,
                changed: 0,
                count: 0,
                runs: 0,
            },
        }
    }
}
