// The writer of the task text: the tables are judged first, and then the task's text goes into the lent buffer, line by line.
#![tactic(auto)]

ghost use Rattle.std.specs.Prelude.{◌≡◌, ◌≤◌};
ghost use Rattle.meaning.specs.Limits.{most_vars, most_ops, most_maps};
ghost use Rattle.tables.specs.Task.{task_of, lent};
ghost use Rattle.grammar.specs.Spelling.{spelled};
ghost use Rattle.grammar.specs.Writing.{page, write_text};
ghost use Rattle.writer.specs.Inside.Pen.{Puts};

mod lines;
mod pen;
mod rows;

use meaning::limits::BYTES_MOST;
use pen::Pen;
use refusals::Refusal;
use scan::tables_fault;
use tables::LentTables;
use tables::readers::{DOM_ROW, INIT_ROW};

impl Pen<'_> {
    // The whole text.
    fn put_task(&mut self, t: LentTables)
        requires { (t.counts.vars ≤ most_vars) × (t.counts.ops ≤ most_ops) × (t.counts.maps ≤ most_maps) }
        ensures { Puts self.old (spelled (task_of (lent t))) self.new }
    {
        self.put_count(b"edition=", t.counts.edition);
        self.put_count(b"vars=", t.counts.vars);
        self.put_values(b"dom=", t.facts, DOM_ROW, t.counts.vars);
        self.put_values(b"init=", t.facts, INIT_ROW, t.counts.vars);
        self.put_goal(t.facts, t.counts.vars);
        self.put_quota(t.counts);
        self.put_count(b"ops=", t.counts.ops);
        self.put_ops(t);
        self.put_count(b"maps=", t.counts.maps);
        self.put_maps(t);
        self.put_split(t);
    }
}

// Writes the text of a task's tables into the lent buffer: its length, or why not. What is left behind is what the spelling says.
pub fn write(t: LentTables, out: &mut [u8]) -> Result<u32, Refusal>
    ensures { page result out.new ≡ write_text (lent t) out.old }
{
    if out.len() < BYTES_MOST {
        return Err(Refusal::TableTooShort);
    }
    tables_fault(t)?;
    let mut pen = Pen::new(out);
    pen.put_task(t);
    Ok(pen.place() as u32)
}
