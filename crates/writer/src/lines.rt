// The lines of the text, each with its line end; those of a kind one after another. What several have alike, the end of a line and the loop over lines, is so short
// that a function over a closure, with a clause on what that one writes, would be longer.
ghost use Rattle.std.specs.Prelude.{[], ◌∷◌, ◌++◌, ◌≤◌, ◌<◌};
ghost use Rattle.meaning.specs.Limits.{most_vars, most_ops, most_maps};
ghost use Rattle.tables.specs.Layout.{row_at, goal_at, share_at, quota_of, mark_of};
ghost use Rattle.tables.specs.Task.{task_of, lent, was};
ghost use Rattle.grammar.specs.Fields.{line_end, semicolon};
ghost use Rattle.grammar.specs.Spelling.{digits, numbers, some_facts, keyed, stacked, spelled_in, op_text, map_text, share_text};
ghost use Rattle.writer.specs.Inside.Pen.{Puts};

use crate::pen::{DASH, LINE_END, Pen, SEMICOLON, SLASH};
use meaning::OpNo;
use meaning::limits::QUOTA_EDITION;
use tables::classes::word_of;
use tables::readers::{DOM_ROW, GOAL_ROW, class_row, cost_at, eff_row, mark_of, pre_row, quota_of};
use tables::{Counts, LentTables};

impl Pen<'_> {
    // A line of one number.
    pub fn put_count(&mut self, key: &[u8], x: u32)
        ensures { Puts self.old (was key ++ digits x ++ line_end ∷ []) self.new }
    {
        self.put_word(key);
        self.put_number(x);
        self.put(LINE_END);
    }

    // A line of a number a variable.
    pub fn put_values(&mut self, key: &[u8], facts: &[u8], row: u32, n: u32)
        ensures { Puts self.old (was key ++ numbers (row_at (was facts) row) n ++ line_end ∷ []) self.new }
    {
        self.put_word(key);
        self.put_row(facts, row, n);
        self.put(LINE_END);
    }

    // The goal's line.
    pub fn put_goal(&mut self, facts: &[u8], n: u32)
        ensures { Puts self.old (keyed "goal=" (some_facts (goal_at (was facts)) n 0)) self.new }
    {
        self.put_word(b"goal=");
        self.put_facts(facts, GOAL_ROW, n);
        self.put(LINE_END);
    }

    // The quota's line, which edition 2 alone has.
    pub fn put_quota(&mut self, c: Counts)
        ensures { Puts self.old (spelled_in c.edition (keyed "quota=" (digits (quota_of c)))) self.new }
    {
        if c.edition == QUOTA_EDITION {
            self.put_count(b"quota=", quota_of(c));
        }
    }

    // An operator's mark after a semicolon, which edition 2 alone has.
    fn put_mark(&mut self, t: LentTables, o: OpNo)
        ensures { Puts self.old (spelled_in (lent t).counts.edition (semicolon ∷ digits (mark_of (lent t).counts (lent t).facts o.0))) self.new }
    {
        if t.counts.edition == QUOTA_EDITION {
            self.put(SEMICOLON);
            self.put_number(mark_of(t.counts, t.facts, o));
        }
    }

    // The line of an operator: its cost, its preconditions, its effects, and in edition 2 its mark.
    fn put_op(&mut self, t: LentTables, o: OpNo)
        requires { o.0 < most_ops }
        ensures { Puts self.old (keyed "op=" (op_text (task_of (lent t)) o.0)) self.new }
    {
        self.put_word(b"op=");
        self.put_number(cost_at(t.costs, o));
        self.put(SEMICOLON);
        self.put_facts(t.facts, pre_row(o), t.counts.vars);
        self.put(SEMICOLON);
        self.put_facts(t.facts, eff_row(o), t.counts.vars);
        self.put_mark(t, o);
        self.put(LINE_END);
    }

    // The lines of the operators.
    pub fn put_ops(&mut self, t: LentTables)
        requires { t.counts.ops ≤ most_ops }
        ensures { Puts self.old (stacked (λ o. keyed "op=" (op_text (task_of (lent t)) o)) (lent t).counts.ops 0) self.new }
    {
        for o in 0..t.counts.ops {
            self.put_op(t, OpNo(o));
        }
    }

    // The classes of each variable's values in a map.
    fn put_classes(&mut self, t: LentTables, m: u32)
        requires { (t.counts.vars ≤ most_vars) × (m < most_maps) }
        ensures { Puts self.old (map_text (task_of (lent t)) m) self.new }
    {
        for v in 0..t.counts.vars {
            self.put_row(t.facts, class_row(m, v), word_of(t.facts, DOM_ROW, v));
            self.put_gap(SLASH, t.counts.vars - v - 1);
        }
    }

    // The line of a map.
    fn put_map(&mut self, t: LentTables, m: u32)
        requires { (t.counts.vars ≤ most_vars) × (m < most_maps) }
        ensures { Puts self.old (keyed "map=" (map_text (task_of (lent t)) m)) self.new }
    {
        self.put_word(b"map=");
        self.put_classes(t, m);
        self.put(LINE_END);
    }

    // The lines of the maps.
    pub fn put_maps(&mut self, t: LentTables)
        requires { (t.counts.vars ≤ most_vars) × (t.counts.maps ≤ most_maps) }
        ensures { Puts self.old (stacked (λ m. keyed "map=" (map_text (task_of (lent t)) m)) (lent t).counts.maps 0) self.new }
    {
        for m in 0..t.counts.maps {
            self.put_map(t, m);
        }
    }

    // What a map charges: a number an operator, or a dash if there are none.
    fn put_charges(&mut self, t: LentTables, m: u32)
        ensures { Puts self.old (share_text (share_at (lent t).shares m) (lent t).counts.ops) self.new }
    {
        if t.counts.ops == 0 {
            self.put(DASH);
        } else {
            self.put_shares(t.shares, m, t.counts.ops);
        }
    }

    // The line of a map's shares.
    fn put_share(&mut self, t: LentTables, m: u32)
        ensures { Puts self.old (keyed "share=" (share_text (share_at (lent t).shares m) (lent t).counts.ops)) self.new }
    {
        self.put_word(b"share=");
        self.put_charges(t, m);
        self.put(LINE_END);
    }

    // The lines of the maps' shares.
    pub fn put_split(&mut self, t: LentTables)
        ensures { Puts self.old (stacked (λ m. keyed "share=" (share_text (share_at (lent t).shares m) (lent t).counts.ops)) (lent t).counts.maps 0) self.new }
    {
        for m in 0..t.counts.maps {
            self.put_share(t, m);
        }
    }
}
