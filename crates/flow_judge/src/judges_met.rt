//! Judges that are told of one another, and whether a judge is alone over its tables.
ghost use Rattle.flow_filter.specs.OneThread.{layout_of};
ghost use Rattle.flow_judge.specs.Judges.{AreOfOneTable};
ghost use Rattle.flow_judge.specs.Meetings.{AreMetJudges, TellsLoneJudge};

use crate::callers_split_and_joined::meet_callers;
use crate::judge::Judge;
use bihash_words::Shape;

impl<A: Shape, B: Shape> Judge<A, B> {
    /// Both judges, each of which knows of the tables what either knew.
    pub fn meet(self, other: Judge<A, B>) -> (Judge<A, B>, Judge<A, B>)
        requires { AreOfOneTable self other }
        ensures { AreMetJudges (layout_of ⟦<A as Shape>⟧ ⟦<B as Shape>⟧) self other result.0 result.1 }
    {
        let Judge {
            filter,
            tables,
            callers,
            counts,
        } = self;
        let (callers, others) = meet_callers(tables.tables(), callers, other.callers);
        (
            Judge {
                filter,
                tables,
                callers,
                counts,
            },
            Judge {
                filter: other.filter,
                tables: other.tables,
                callers: others,
                counts: other.counts,
            },
        )
    }

    /// Whether the judge has every number that was made for judges over its tables. It is never contended then, until a
    /// split of it succeeds.
    pub fn is_lone(&mut self) -> bool
        ensures { TellsLoneJudge (layout_of ⟦<A as Shape>⟧ ⟦<B as Shape>⟧) self.old self.new result }
    {
        let tables = self.tables.tables();
        let in_four = tables.four.is_lone(&mut self.callers.four);
        let in_six = tables.six.is_lone(&mut self.callers.six);
        in_four && in_six
    }
}
