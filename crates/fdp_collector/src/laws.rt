ghost use Rattle.fdp_base.specs.declared.config.Class.{Class};
ghost use Rattle.fdp_base.specs.declared.config.Geometry.{Geometry};
ghost use Rattle.fdp_collector.specs.Leaving.{StepMayLeave};
ghost use Rattle.fdp_collector.specs.Ready.{AreOfFlash, IsReady, KeepsLive, Relocation};
ghost use Rattle.fdp_flash.specs.declared.cell.Cell.{Cell};
ghost use Rattle.fdp_owners.specs.OwnerTable.{OwnerTable};
ghost use Rattle.std.specs.Prelude.{Bool, List, ℕ};

/// Whatever a stop in a step leaves, each page to which a block or a going write points is as it was.
pub fn live_pages_outlast_a_step()
    ensures kept { (s : Relocation) (o : OwnerTable) (classes : List Class) (rg : ℕ) (may_erase : Bool) (g : Geometry) (old image : List Cell) → IsReady s o classes rg → AreOfFlash s.units g → StepMayLeave may_erase g s.units o old image → KeepsLive g o old image }
{}
