//! Writing the header of a new index.

ghost use Rattle.std.specs.Prelude.{◌≡◌, ◌++◌, ◌∷◌, [], true, false, OnOk, OnErr, IfSome};
ghost use Rattle.dg_disk.specs.Calls.{FailsToWrite, IsOnDevice, LeftByCrash, WritesDisk};
ghost use Rattle.dg_history.specs.History.{are_parameters, empty_history, is_form, is_function};
ghost use Rattle.dg_index.specs.FileOfHistory.{file};
ghost use Rattle.dg_index.specs.ImageOfHistory.{IsImageOf, is_blank};
ghost use Rattle.dg_file.specs.Growth.{Moved};
ghost use Rattle.dg_file.specs.Headers.{is_upgraded};
ghost use Rattle.dg_file.specs.Images.{IsMadeInPart};

use crate::disk_calls::put_down;
use crate::header::{CLOSED, OPEN, header_behind_gate};
use dg_disk::{Disk, Failed};
use dg_history::{Form, Params};

/// Writes the header of an index without a batch, its own gate closed as long as the rest is not on the
/// device. `Failed` where the disk failed.
pub(crate) fn write_header<D: Disk>(disk: &mut D, form: Form, params: Params) -> Result<(), Failed>
    requires parameters { are_parameters params.l params.k ≡ true }
    requires function { is_function params.function ≡ true }
    requires form { is_form form params.function 0 ≡ true }
    requires first { is_upgraded form ≡ false }
    requires blank { IfSome (D.image disk.old) (λ image. is_blank image ≡ true) }
    ensures image { OnOk result (Moved (D.image disk.old) (D.image disk.new) (λ before after. IsImageOf (empty_history form params) after)) }
    ensures exact { OnOk result (Moved (D.image disk.old) (D.image disk.new) (λ before after. after ≡ file (empty_history form params) ++ 0 ∷ [])) }
    ensures part { OnErr result (Moved (D.image disk.old) (D.image disk.new) (IsMadeInPart form params)) }
    ensures cause { OnErr result (FailsToWrite D.Disk disk.old disk.new) }
    ensures frame { WritesDisk D.Disk disk.old disk.new }

    // crashes
    ensures settled { OnOk result (IsOnDevice D.Disk disk.new) }
    ensures crash { LeftByCrash D.Disk disk.old disk.new (IsMadeInPart form params) }
{
    put_down(disk, 0, &[CLOSED])?;
    put_down(disk, 1, &header_behind_gate(form, params))?;
    put_down(disk, 0, &[OPEN])
}
