// What the definitions of reading and printing queries have in common.
ghost use Rattle.queries.specs.Laws.{QueriesReadBack, QueryLinesReadBack, QueriesPrintApart};

// What is printed of a query reads back.
pub fn queries_read_back()
    ensures { QueriesReadBack }
{}

// A line with a printed query is a query line with that text.
pub fn query_lines_read_back()
    ensures { QueryLinesReadBack }
{}

// No two queries print alike.
pub fn queries_print_apart()
    ensures { QueriesPrintApart }
{}
