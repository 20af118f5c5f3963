ghost use Rattle.std.specs.Prelude.{◌≤◌, length};
ghost use Rattle.fdp_pages.specs.Leaving.{LeavesGroup, LeavesGroups, LeavesHandles, LeavesTargets};
ghost use Rattle.fdp_pages.specs.Steps.{HasNoOwner, SetsClasses};
ghost use Rattle.fdp_units.specs.UnitTable.{IsGroup};

use crate::leaving::close_targets;
use crate::pages::Pages;
use fdp_base::Class;

impl Pages {
    /// Handles of other classes are in force, and no page has an owner: the units of all handles are closed, and so are all targets. Passes
    /// that are under way go on. It takes a step for each handle of each group, and no memory.
    pub fn set_classes(&mut self, classes: &[Class])
        requires unowned { HasNoOwner self.old }
        requires some { 1 ≤ length classes.now }
        requires few { length classes.now ≤ 16 }
        ensures { SetsClasses self.old self.new classes.now }
    {
        self.leave_groups();
        self.handles.set_classes(classes);
    }

    /// In each group no handle has a unit any more, and no lane a target.
    fn leave_groups(&mut self)
        requires { HasNoOwner self.old }
        ensures { LeavesGroups self.old self.new (length self.old.units.groups) }
    {
        self.joined(); // proof
        for rg in 0..self.units.groups() {
            self.leave_group(rg);
        }
    }

    /// In a group no handle has a unit any more, and no lane a target.
    fn leave_group(&mut self, rg: u16)
        requires group { IsGroup self.old.units rg }
        requires unowned { HasNoOwner self.old }
        ensures { LeavesGroup self.old self.new rg }
    {
        self.leave_handles(rg);
        self.leave_targets(rg);
    }

    /// No handle has a unit in a group any more.
    fn leave_handles(&mut self, rg: u16)
        requires { IsGroup self.old.units rg }
        ensures { LeavesHandles self.old self.new rg (length self.old.handles.classes) }
    {
        self.joined(); // proof
        for ruh in 0..self.handles.classes().len() as u8 {
            self.update(rg, ruh);
        }
    }

    /// No lane has a target in a group any more.
    fn leave_targets(&mut self, rg: u16)
        requires group { IsGroup self.old.units rg }
        requires unowned { HasNoOwner self.old }
        ensures { LeavesTargets self.old self.new rg }
    {
        let passes = &mut self.passes[rg as usize];
        close_targets(&mut self.units, passes, self.handles.classes());
        passes.drop_targets();
    }
}
