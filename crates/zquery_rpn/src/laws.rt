//! Laws of queries as elements, each the contract of a function that does nothing.
ghost use Rattle.std.specs.Prelude.{◌≡◌, Option, Some};
ghost use Rattle.zber.specs.Elements.{Element};
ghost use Rattle.zquery_rpn.specs.Trees.{RpnQuery};
ghost use Rattle.zquery_rpn.specs.Element.Type1.{IsQueryOfElement, WritesQuery};

/// An element stands for one type-1 query at most.
pub fn one_query()
    ensures { (q r : RpnQuery) (n : Element) → WritesQuery q n → WritesQuery r n → q ≡ r }
{}

/// If an element stands for a query, reading it returns this query.
pub fn read_back()
    ensures { (q : RpnQuery) (n : Element) (o : Option RpnQuery) → WritesQuery q n → IsQueryOfElement n o → o ≡ Some q }
{}
