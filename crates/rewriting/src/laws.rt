// What the definitions of steps have in common with the published notion, and with one another.
ghost use Rattle.rewriting.specs.Classes.{NamesAreClasses, ConstantsApart};
ghost use Rattle.rewriting.specs.Computing.{SearchIsRight, RuleCheckIsRight};
ghost use Rattle.rewriting.specs.Examples.{ExamplesHold, FurtherExamplesHold};
ghost use Rattle.rewriting.specs.Rightness.{JudgeIsRight, StrikeIsRight, StepsAreSound, AnswersAreRight};
ghost use Rattle.rewriting.specs.Steps.{NewQueryIsOne};
ghost use Rattle.rewriting.specs.Unifiers.{RightIsUnifier, UnifierIsRight, ReadIsApart, EntersIsUnifier, NewQueryIsPublished};

// The names of classes are those of the finest grouping in which both ends of every tie are together.
pub fn names_are_classes()
    ensures names { NamesAreClasses }
    ensures constants { ConstantsApart }
{}

// A right step is a family of piece-unifiers with an admissible join, and ties that make the join of any such family the
// classes make a right step; a query is entered exactly by such a step that fits.
pub fn right_steps_are_piece_unifiers()
    ensures right { RightIsUnifier }
    ensures unifier { UnifierIsRight }
    ensures apart { ReadIsApart }
    ensures enters { EntersIsUnifier }
{}

// There is one new query, and it is the published one up to the names of variables and the order of atoms.
pub fn new_queries_are_published()
    ensures one { NewQueryIsOne }
    ensures published { NewQueryIsPublished }
{}

// Where the new query of a right step holds in a list that keeps the rule, a query that the step uses holds there.
pub fn right_steps_are_sound()
    ensures { StepsAreSound }
{}

// What is computed of a step, a strike and the questions is what their definitions say.
pub fn outcomes_are_right()
    ensures steps { JudgeIsRight }
    ensures strikes { StrikeIsRight }
    ensures answers { AnswersAreRight }
    ensures search { SearchIsRight }
    ensures rules { RuleCheckIsRight }
{}

// The worked examples come to what they should.
pub fn examples_hold()
    ensures listed { ExamplesHold }
    ensures further { FurtherExamplesHold }
{}
