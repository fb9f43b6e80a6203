// Texts of queries, and what they are read as.
use crate::literals::{check_each, repeated, utf8};
use query_model::query::{
    AggCall, ColumnRef, CondOf, ExprOf, Item, ItemKind, Items, Number, Operand, Query, Span,
    TableRef,
};
use sql_text::parse;
use std::alloc::{AllocError, Global};
use std::test::Fail;

fn write_column(out: &mut String, column: &ColumnRef) -> Result<(), AllocError> {
    if let Some(table) = &column.table {
        write!(out, "{}.", utf8(table))?;
    }
    out.push_str(utf8(&column.name))
}

// A column, a number, or arithmetic in parentheses.
fn write_expr(out: &mut String, expr: &ExprOf<ColumnRef>) -> Result<(), AllocError> {
    match expr {
        ExprOf::Column(column) => write_column(out, column),
        ExprOf::Number(Number { negative, size }) => {
            write!(out, "{}{size}", if *negative { "-" } else { "" })
        }
        ExprOf::Arith(op, left, right) => {
            out.push('(')?;
            write_expr(out, left)?;
            write!(out, " {op:?} ")?;
            write_expr(out, right)?;
            out.push(')')
        }
    }
}

fn write_call(out: &mut String, call: &AggCall<ColumnRef>) -> Result<(), AllocError> {
    write!(out, "{:?}(", call.op)?;
    if let Some(expr) = &call.arg {
        write_expr(out, expr)?;
    }
    out.push(')')
}

fn write_operand(out: &mut String, operand: &Operand<ColumnRef>) -> Result<(), AllocError> {
    match operand {
        Operand::Plain(expr) => write_expr(out, expr),
        Operand::Text(text) => write!(out, "<{}>", utf8(text)),
        Operand::Agg(call) => write_call(out, call),
        Operand::Null => out.push_str("NULL"),
    }
}

// Comparisons stand in brackets, AND and OR in braces.
fn write_condition(out: &mut String, condition: &CondOf<ColumnRef>) -> Result<(), AllocError> {
    match condition {
        CondOf::Compare(op, left, right) => {
            out.push('[')?;
            write_operand(out, left)?;
            write!(out, " {op:?} ")?;
            write_operand(out, right)?;
            out.push(']')
        }
        CondOf::And(left, right) => {
            out.push('{')?;
            write_condition(out, left)?;
            out.push_str(" AND ")?;
            write_condition(out, right)?;
            out.push('}')
        }
        CondOf::Or(left, right) => {
            out.push('{')?;
            write_condition(out, left)?;
            out.push_str(" OR ")?;
            write_condition(out, right)?;
            out.push('}')
        }
        CondOf::Not(inner) => {
            out.push_str("NOT ")?;
            write_condition(out, inner)
        }
        CondOf::IsNull(operand) => {
            write_operand(out, operand)?;
            out.push_str(" IS NULL")
        }
    }
}

fn write_item(out: &mut String, item: &Item) -> Result<(), AllocError> {
    match &item.what {
        ItemKind::Plain(expr) => write_expr(out, expr)?,
        ItemKind::Agg(call) => write_call(out, call)?,
    }
    match &item.alias {
        Some(alias) => write!(out, " AS {}", utf8(alias)),
        None => Ok(()),
    }
}

fn write_items(out: &mut String, items: &[Item]) -> Result<(), AllocError> {
    for (i, item) in items.iter().enumerate() {
        out.push_str(if i > 0 { ", " } else { "" })?;
        write_item(out, item)?;
    }
    Ok(())
}

fn write_table(out: &mut String, word: &str, table: &TableRef) -> Result<(), AllocError> {
    match table {
        TableRef::Named(name) => write!(out, " {word} {}", utf8(name)),
        TableRef::Numbers(count) => write!(out, " {word} numbers {count}"),
    }
}

fn write_tables(out: &mut String, query: &Query) -> Result<(), AllocError> {
    write_table(out, "of", &query.from)?;
    if let Some(join) = &query.join {
        write_table(out, "with", &join.table)?;
        for pair in join.pairs.as_slice() {
            out.push_str(" on ")?;
            write_column(out, &pair.left)?;
            out.push_str(" = ")?;
            write_column(out, &pair.right)?;
        }
    }
    Ok(())
}

fn write_clauses(out: &mut String, query: &Query) -> Result<(), AllocError> {
    if let Some(filter) = &query.filter {
        out.push_str(" where ")?;
        write_condition(out, filter)?;
    }
    for key in query.keys.as_slice() {
        out.push_str(" each ")?;
        write_column(out, key)?;
    }
    if let Some(having) = &query.having {
        out.push_str(" having ")?;
        write_condition(out, having)?;
    }
    Ok(())
}

fn write_order(out: &mut String, query: &Query) -> Result<(), AllocError> {
    for key in query.order.as_slice() {
        let down = if key.descending { " down" } else { "" };
        write!(out, " by {}{down}", utf8(&key.name))?;
    }
    match query.limit {
        Some(Span { count, skip }) => write!(out, " first {count} behind {skip}"),
        None => Ok(()),
    }
}

fn write_query(out: &mut String, query: &Query) -> Result<(), AllocError> {
    match &query.items {
        Items::Star => out.push('*')?,
        Items::Listed(items) => write_items(out, items.as_slice())?,
    }
    write_tables(out, query)?;
    write_clauses(out, query)?;
    write_order(out, query)
}

fn query_text(alloc: Global, text: &str) -> Result<String, Fail> {
    // A list of one is dropped by one call.
    let mut ended = Vec::with_capacity(alloc, 1)?;
    ended.push_reserved(parse(alloc, text.as_bytes()));
    let mut out = String::new(alloc);
    match ended.as_slice().first() {
        Some(Ok(query)) => write_query(&mut out, query)?,
        Some(Err(refusal)) => write!(out, "{refusal:?}")?,
        None => {}
    }
    Ok(out)
}

static TEXTS: [&str; 165] = [
    // Items.
    "SELECT a FROM t LIMIT 1~a of t first 1 behind 0",
    "SELECT a FROM numbers(3)~a of numbers 3",
    "SELECT a FROM t~a of t",
    "select A from T~A of T",
    "SeLeCt a FrOm t;~a of t",
    "SELECT * FROM t~* of t",
    "SELECT * , a FROM t~Syntax",
    "SELECT a, b, c FROM t~a, b, c of t",
    "SELECT a AS x, b aS y FROM t~a AS x, b AS y of t",
    "SELECT t.a, b FROM t~t.a, b of t",
    "SELECT a.b.c FROM t~Syntax",
    "SELECT a. FROM t~Syntax",
    "SELECT a - b - c FROM t~((a Sub b) Sub c) of t",
    "SELECT a - (b - c) FROM t~(a Sub (b Sub c)) of t",
    "SELECT a + b * c FROM t~(a Add (b Mul c)) of t",
    "SELECT a * b + c FROM t~((a Mul b) Add c) of t",
    "SELECT a * b * c FROM t~((a Mul b) Mul c) of t",
    "SELECT (a + b) * c FROM t~((a Add b) Mul c) of t",
    "SELECT a+-1 FROM t~(a Add -1) of t",
    "SELECT a - - 1 FROM t~(a Sub -1) of t",
    "SELECT a - -b FROM t~Syntax",
    "SELECT -5, 0, 18446744073709551615 FROM t~-5, 0, 18446744073709551615 of t",
    "SELECT 007 FROM t~7 of t",
    "SELECT ((a)) FROM t~a of t",
    "SELECT (a FROM t~Syntax",
    "SELECT a) FROM t~Syntax",
    "SELECT 'x' FROM t~Syntax",
    "SELECT a = 1 FROM t~Syntax",
    "SELECT a AS FROM t~Syntax",
    "SELECT a b FROM t~Syntax",
    "SELECT a,\tb\r\nFROM t ; ~a, b of t",
    "SELECT count, sum, numbers FROM min~count, sum, numbers of min",
    "SELECT _a1 FROM _~_a1 of _",
    "SELECT a, FROM t~Syntax",
    // Conditions.
    "SELECT a FROM t WHERE a = 1~a of t where [a Eq 1]",
    "SELECT a FROM t WHERE a == 1~a of t where [a Eq 1]",
    "SELECT a FROM t WHERE a != 1~a of t where [a Ne 1]",
    "SELECT a FROM t WHERE a <> 1~a of t where [a Ne 1]",
    "SELECT a FROM t WHERE a<1 OR a<=1~a of t where {[a Lt 1] OR [a Le 1]}",
    "SELECT a FROM t WHERE a>1 AND a>=1~a of t where {[a Gt 1] AND [a Ge 1]}",
    "SELECT a FROM t WHERE a = 1 OR b = 2 AND c = 3~\
     a of t where {[a Eq 1] OR {[b Eq 2] AND [c Eq 3]}}",
    "SELECT a FROM t WHERE a = 1 AND b = 2 OR c = 3~\
     a of t where {{[a Eq 1] AND [b Eq 2]} OR [c Eq 3]}",
    "SELECT a FROM t WHERE (a = 1 OR b = 2) AND c = 3~\
     a of t where {{[a Eq 1] OR [b Eq 2]} AND [c Eq 3]}",
    "SELECT a FROM t WHERE a = 1 OR b = 2 OR c = 3~\
     a of t where {{[a Eq 1] OR [b Eq 2]} OR [c Eq 3]}",
    "SELECT a FROM t WHERE NOT NOT a = 1~a of t where NOT NOT [a Eq 1]",
    "SELECT a FROM t WHERE NOT a = 1 AND b = 2~a of t where {NOT [a Eq 1] AND [b Eq 2]}",
    "SELECT a FROM t WHERE NOT (a = 1 AND b = 2)~a of t where NOT {[a Eq 1] AND [b Eq 2]}",
    "SELECT a FROM t WHERE (a) = 1~a of t where [a Eq 1]",
    "SELECT a FROM t WHERE (a = 1)~a of t where [a Eq 1]",
    "SELECT a FROM t WHERE ((a + 1) * 2 = (b))~a of t where [((a Add 1) Mul 2) Eq b]",
    "SELECT a FROM t WHERE a~Syntax",
    "SELECT a FROM t WHERE (a = 1) = 1~Syntax",
    "SELECT a FROM t WHERE a = b = c~Syntax",
    "SELECT a FROM t WHERE a + NOT b = c~Syntax",
    "SELECT a FROM t WHERE ('x') = a~Syntax",
    "SELECT a FROM t WHERE a < 'it''s'~a of t where [a Lt <it's>]",
    "SELECT a FROM t WHERE a = 'it\\'s'~a of t where [a Eq <it's>]",
    "SELECT a FROM t WHERE '\\\\' = ''~a of t where [<\\> Eq <>]",
    "SELECT a FROM t WHERE a = '\\x'~Syntax",
    "SELECT a FROM t WHERE a = 'x~Syntax",
    "SELECT a FROM t WHERE a = '\u{e9}' AND b = 'FROM'~\
     a of t where {[a Eq <\u{e9}>] AND [b Eq <FROM>]}",
    "SELECT a FROM t WHERE~Syntax",
    // NULL.
    "SELECT a FROM t WHERE a IS NULL~a of t where a IS NULL",
    "SELECT a FROM t WHERE a iS nOt NuLl~a of t where NOT a IS NULL",
    "SELECT a FROM t WHERE NOT a + 1 IS NULL AND 'x' IS NULL~\
     a of t where {NOT (a Add 1) IS NULL AND <x> IS NULL}",
    "SELECT a FROM t WHERE NOT NOT a IS NOT NULL~a of t where NOT NOT NOT a IS NULL",
    "SELECT a FROM t WHERE (a) IS NULL OR (t.a IS NULL)~\
     a of t where {a IS NULL OR t.a IS NULL}",
    "SELECT a FROM t WHERE NULL = a OR a < NULL OR NULL IS NULL~\
     a of t where {{[NULL Eq a] OR [a Lt NULL]} OR NULL IS NULL}",
    "SELECT a FROM t HAVING count() IS NULL AND (a IS NOT NULL OR NULL <> 1)~\
     a of t having {Count() IS NULL AND {NOT a IS NULL OR [NULL Ne 1]}}",
    "SELECT a FROM t HAVING a + 1 IS NULL~Syntax",
    "SELECT a FROM t WHERE a = b IS NULL~Syntax",
    "SELECT a FROM t WHERE (a = b) IS NULL~Syntax",
    "SELECT a FROM t WHERE a IS NULL IS NULL~Syntax",
    "SELECT a FROM t WHERE a IS NULL = b~Syntax",
    "SELECT a FROM t WHERE a IS NULL + 1~Syntax",
    "SELECT a FROM t WHERE NOT a IS~Syntax",
    "SELECT a FROM t WHERE a IS NOT~Syntax",
    "SELECT a FROM t WHERE a IS NOT NOT NULL~Syntax",
    "SELECT a FROM t WHERE a IS NOT (NULL)~Syntax",
    "SELECT a FROM t WHERE a IS b~Syntax",
    "SELECT a FROM t WHERE IS NULL~Syntax",
    "SELECT a FROM t WHERE a NOT NULL~Syntax",
    "SELECT a FROM t WHERE a = NOT NULL~Syntax",
    "SELECT a FROM t WHERE (NULL) = a~Syntax",
    "SELECT a FROM t WHERE a + NULL = 1~Syntax",
    "SELECT NULL FROM t~Syntax",
    "SELECT sum(NULL) FROM t~Syntax",
    "SELECT a AS null FROM t~Syntax",
    "SELECT a FROM t WHERE a = 1 ORDER BY a, b desc LIMIT 3~\
     a of t where [a Eq 1] by a by b down first 3 behind 0",
    // No queries.
    "~Syntax",
    "  \t\r\n~Syntax",
    ";;~Syntax",
    "SELECT~Syntax",
    "SELECT FROM t~Syntax",
    "SELECT a~Syntax",
    "SELECT a FROM~Syntax",
    "SELECT a FROM t;;~Syntax",
    "SELECT a FROM t u~Syntax",
    "SELECT 1a FROM t~Syntax",
    "SELECT 1_ FROM t~Syntax",
    "SELECT a ! b FROM t~Syntax",
    "SELECT a / b FROM t~Syntax",
    "SELECT \u{e9} FROM t~Syntax",
    "SELECT from FROM t~Syntax",
    "SELECT a FROM select~Syntax",
    "SELECT DISTINCT a FROM t~Syntax",
    "SELECT a IS NULL FROM t~Syntax",
    "SELECT 18446744073709551616 FROM t~NumberTooLarge",
    "SELECT a FROM t LIMIT 18446744073709551616~NumberTooLarge",
    "SELECT a FROM NUMBERS(3)~Syntax",
    "SELECT a FROM t ORDER~Syntax",
    "SELECT count() FROM t ON~Syntax",
    "SELECT a FROM t OFFSET 'x~Syntax",
    // Every clause.
    "SELECT a FROM t LIMIT 3~a of t first 3 behind 0",
    "SELECT a FROM t LIMIT 3 OFFSET 2~a of t first 3 behind 2",
    "SELECT a FROM t LIMIT 0;~a of t first 0 behind 0",
    "SELECT a FROM t OFFSET 2~Syntax",
    "SELECT a FROM t LIMIT~Syntax",
    "SELECT a FROM t LIMIT -1~Syntax",
    "SELECT a FROM t LIMIT 1 OFFSET~Syntax",
    "SELECT a FROM t OFFSET 2 LIMIT 3~Syntax",
    "SELECT a FROM t LIMIT 18446744073709551616~NumberTooLarge",
    "SELECT a FROM t ORDER BY a~a of t by a",
    "SELECT a FROM t ORDER BY a ASC, b desc, c~a of t by a by b down by c",
    "SELECT a FROM t ORDER BY t.a~Syntax",
    "SELECT a FROM t ORDER BY a + 1~Syntax",
    "SELECT a FROM t ORDER a~Syntax",
    "SELECT a FROM t ORDER BY~Syntax",
    "SELECT a FROM t ORDER BY a,~Syntax",
    "SELECT number FROM numbers(3)~number of numbers 3",
    "SELECT number FROM numbers ( 0 )~number of numbers 0",
    "SELECT a FROM numbers~a of numbers",
    "SELECT a FROM NUMBERS(3)~Syntax",
    "SELECT a FROM numbers()~Syntax",
    "SELECT a FROM numbers(-3)~Syntax",
    "SELECT a FROM t(3)~Syntax",
    "SELECT count() FROM t~Count() of t",
    "SELECT COUNT(*) AS n FROM t~Count() AS n of t",
    "SELECT count(a) FROM t~Syntax",
    "SELECT Sum(a + b * 2), mIn(a), max((a)) FROM t~Sum((a Add (b Mul 2))), Min(a), Max(a) of t",
    "SELECT sum() FROM t~Syntax",
    "SELECT sum(*) FROM t~Syntax",
    "SELECT sum('x') FROM t~Syntax",
    "SELECT sum(a), FROM t~Syntax",
    "SELECT sum(a) + 1 FROM t~Syntax",
    "SELECT sum(count()) FROM t~Syntax",
    "SELECT a FROM t WHERE count() > 1~Syntax",
    "SELECT a FROM t GROUP BY a~a of t each a",
    "SELECT a FROM t GROUP BY t.a, b~a of t each t.a each b",
    "SELECT a FROM t GROUP a~Syntax",
    "SELECT a FROM t GROUP BY a + 1~Syntax",
    "SELECT a FROM t HAVING a = 1~a of t having [a Eq 1]",
    "SELECT a FROM t GROUP BY a HAVING count() > 1 AND (NOT sum(b) = -2 OR min(c) < 'x')~\
     a of t each a having {[Count() Gt 1] AND {NOT [Sum(b) Eq -2] OR [Min(c) Lt <x>]}}",
    "SELECT a FROM t HAVING a + 1 = 2~Syntax",
    "SELECT a FROM t HAVING (a) = 2~Syntax",
    "SELECT a FROM t HAVING count() = sum(a) * 2~Syntax",
    "SELECT a FROM t JOIN u ON t.a = u.a~a of t with u on t.a = u.a",
    "SELECT a FROM t INNER JOIN numbers(9) ON a == number AND b = c WHERE a = 1~\
     a of t with numbers 9 on a = number on b = c where [a Eq 1]",
    "SELECT a FROM t JOIN u~Syntax",
    "SELECT a FROM t JOIN u ON a~Syntax",
    "SELECT a FROM t JOIN u ON a < b~Syntax",
    "SELECT a FROM t JOIN u ON a = b OR c = d~Syntax",
    "SELECT a FROM t LEFT JOIN u ON a = b~Syntax",
    "SELECT a FROM t WHERE a = 1 JOIN u ON a = b~Syntax",
    "SELECT shop, count() AS n, sum(qty * price) AS total FROM sales WHERE price > 50 GROUP BY \
     shop HAVING count() > 1 ORDER BY total DESC, shop LIMIT 10~shop, Count() AS n, \
     Sum((qty Mul price)) AS total of sales where [price Gt 50] each shop \
     having [Count() Gt 1] by total down by shop first 10 behind 0",
];

#[test]
fn texts_have_their_answers(rt: HostRuntime) -> Result<(), Fail> {
    check_each(&rt, rt.alloc(), &TEXTS, query_text)
}

fn refusal_text(alloc: Global, text: &str) -> Result<String, Fail> {
    let text = repeated(alloc, text)?;
    let refusal = parse(alloc, text.as_str().as_bytes()).err();
    Ok(format!(in alloc; "{refusal:?}")?)
}

static LIMITS: [&str; 9] = [
    "SELECT a FROM t| |65521|~None",
    "SELECT a FROM t| |65522|~Some(TooLong)",
    "SELECT a|+a|1000| FROM t~None",
    "SELECT a|+a|1001| FROM t~Some(TooComplex)",
    "SELECT |(|1000|a FROM t~Some(Syntax)",
    "SELECT a FROM t WHERE| NOT|1000| a = 1~None",
    "SELECT a FROM t WHERE |a = (|1000|~Some(Syntax)",
    "SELECT a FROM t WHERE |a IS NOT NULL AND |500|a IS NULL~None",
    "SELECT a FROM t WHERE |a IS NOT NULL AND |500|NOT a IS NULL~Some(TooComplex)",
];

#[test]
fn limits_are_kept(rt: HostRuntime) -> Result<(), Fail> {
    check_each(&rt, rt.alloc(), &LIMITS, refusal_text)
}
