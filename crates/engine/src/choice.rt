// What is chosen for one load, read from the filled cells: the lowest rule that still reaches the best, and the smallest allowance that does.
ghost use Rattle.std.specs.Prelude.{◌≡◌, Some, IfSome, ◌+◌, ◌≤◌, ◌<◌};
ghost use Rattle.cells.specs.Outline.{joint_in, rules_in, best_in, JointFits, RuleFits, RulesFit};
ghost use Rattle.cells.specs.Work.{place_of, cells_from};
ghost use Rattle.cells.specs.Stretch.{leading, reach_of, reached};
ghost use Rattle.engine.specs.Search.{split_at, share_of, choice_in, FirstAt, Reaches};

use crate::filled::Filled;
use cells::cell;
use cells::outline::{Joint, Lead, Rules, joint_at, lead_of, next_rule, rules_at};
use cells::problem::{draw_of, own_of, serves};

// What is chosen for a load in its state, or for the row from a load onward at its stage: the rule's number and its label, which is the
// load's mark or its state; the allowance of the load or of its branch; and the row that follows: its first load, its stage and its allowance.
#[derive(Clone, Copy)]
pub struct Choice {
    pub rule: u8,
    pub label: u8,
    pub share: usize,
    pub rest: usize,
    pub stage: u8,
    pub left: usize,
}

impl<'a> Filled<'a> {
    // What is reached where the joint's branch, in the state of a lead, gets the part a of the allowance c, and its row, at the lead's stage, the rest.
    fn split(&self, t: Joint, lead: Lead, c: usize, a: usize) -> u32
        requires joint { JointFits self.now.shape t }
        requires label_nonzero { (0 < lead.label) × (lead.label ≤ self.now.shape.states) × (0 < lead.stage) × (lead.stage ≤ self.now.shape.stages) × (a ≤ c) × (c ≤ self.now.shape.budget) }
        ensures { result ≡ split_at self.now.shape self.now.cells.now t c (leading lead) a }
    {
        // The row comes first: where it ends it is the same for every allowance.
        let row = self.row_at(t.rest, lead.stage, c - a);
        let branch = self.branch_at(t.load, lead.label, a);
        cell::join(row, branch)
    }

    // The smallest part of the allowance c for the joint's branch with which the goal is reached.
    fn first_share(&self, t: Joint, lead: Lead, c: usize, goal: u32) -> Option<usize>
        requires joint { JointFits self.now.shape t }
        requires label_nonzero { (0 < lead.label) × (lead.label ≤ self.now.shape.states) × (0 < lead.stage) × (lead.stage ≤ self.now.shape.stages) × (c ≤ self.now.shape.budget) }
        ensures { FirstAt (split_at self.now.shape self.now.cells.now t c (leading lead)) goal (c + 1) result }
    {
        (0..c + 1).find(|&a| self.split(t, lead, c, a) == goal)
    }

    // The smallest allowance of what a rule joins with which it reaches the goal.
    fn share_for(&self, t: Joint, lead: Lead, c: usize, goal: u32) -> Option<usize>
        requires joint { JointFits self.now.shape t × RuleFits self.now.shape t.branch (leading lead) }
        requires c_le_budget { c ≤ self.now.shape.budget }
        ensures right { 0 < goal → reach_of self.now.shape self.now.cells.now t c (leading lead) ≤ goal → Reaches (reach_of self.now.shape self.now.cells.now t c (leading lead)) (share_of self.now.shape self.now.cells.now t c (leading lead)) goal result }
        ensures bound { IfSome result (λ a. a ≤ c) }
    {
        if t.branch {
            return self.first_share(t, lead, c, goal);
        }
        if !serves(t.item, lead.kind, lead.label) {
            return None;
        }
        let d = draw_of(t.item, lead.label);
        if c < d {
            return None;
        }
        let own = own_of(t.item, lead.label);
        let row = self.row_at(t.rest, lead.stage, c - d);
        if cell::join(own, row) == goal {
            Some(d)
        } else {
            None
        }
    }

    // The lowest of these rules that reaches the goal with the allowance c. Whatever the cells hold, what follows is in range.
    fn chosen(&self, t: Joint, r: Rules, c: usize, goal: u32) -> Option<Choice>
        requires joint { JointFits self.now.shape t × RulesFit self.now.shape self.now.outline.now t.branch r }
        requires c_le_budget { c ≤ self.now.shape.budget }
        ensures right { goal ≡ (best_in self.now.outline.now r (reach_of self.now.shape self.now.cells.now t c)).value → 0 < goal → result ≡ Some (choice_in self.now.shape self.now.outline.now self.now.cells.now t r c) }
        ensures bounds { IfSome result (λ d. (d.rest ≤ self.now.shape.loads) × (d.left ≤ c)) }
    {
        let mut next = next_rule(self.outline, r, 0);
        while let Some(j) = next {
            let lead = lead_of(self.outline, r, j);
            if let Some(share) = self.share_for(t, lead, c, goal) {
                return Some(Choice {
                    rule: (j + 1) as u8,
                    label: lead.label as u8,
                    share,
                    rest: t.rest,
                    stage: lead.stage as u8,
                    left: c - share,
                });
            }
            next = next_rule(self.outline, r, j + 1);
        }
        None
    }

    // What is chosen for load k and state or stage x with the allowance c, where that is possible; in range, whatever the cells hold.
    pub(crate) fn choose(&self, k: usize, x: usize, c: usize) -> Option<Choice>
        requires { (0 < k) × (k ≤ self.now.shape.loads) × (x < self.now.shape.states + self.now.shape.stages) × (c ≤ self.now.shape.budget) }
        ensures right { cells_from self.now.cells.now (place_of self.now.shape k x) c ≡ reached self.now.shape self.now.outline.now self.now.cells.now k x c → 0 < reached self.now.shape self.now.outline.now self.now.cells.now k x c → result ≡ Some (choice_in self.now.shape self.now.outline.now self.now.cells.now (joint_in self.now.shape self.now.outline.now k x) (rules_in self.now.shape self.now.outline.now x) c) }
        ensures bounds { IfSome result (λ d. (d.rest ≤ self.now.shape.loads) × (d.left ≤ c)) }
    {
        let t = joint_at(self.shape, self.outline, k, x);
        let r = rules_at(self.shape, self.outline, x);
        let goal = self.cell(k, x, c);
        self.chosen(t, r, c, goal)
    }
}
