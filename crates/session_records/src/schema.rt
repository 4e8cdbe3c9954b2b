//! Whether a schema is that of the table of rows, and nothing else.
ghost use Rattle.std.specs.Prelude.{◌≡◌, ◌↔◌, [], ◌∷◌, None, false, IsTrue};
ghost use Rattle.sqlite_value.specs.declared.value.Value.TheVariants.{Null};
ghost use Rattle.session_records.specs.Table.{rows_table, rows_index, rows_schema, listed_schema, no_schema, column_of, no_stamps};

use sqlite_schema::code::Terms;
use sqlite_schema::schema::{Column, Index, Kind, Schema, Stamps, Table};
use sqlite_value::keys::Collation;
use sqlite_value::value::Value;

/// Whether there is nothing.
pub fn is_blank(schema: &Schema) -> bool
    ensures { IsTrue result ↔ (schema.now ≡ no_schema) }
{
    schema.tables.as_slice().is_empty()
        && schema.indexes.as_slice().is_empty()
        && schema.views.as_slice().is_empty()
}

fn is_null(value: &Value) -> bool
    ensures { IsTrue result ↔ (value.now ≡ Null) }
{
    match value {
        Value::Null => true,
        _ => false,
    }
}

fn is_column(column: &Column, name: &[u8], kind: Kind) -> bool
    ensures { IsTrue result ↔ (column.now ≡ column_of name.now kind) }
{
    column.name.as_slice() == name
        && column.kind == kind
        && column.is_strict
        && column.not_null
        && is_null(&column.default)
        && column.collation == Collation::Binary
}

fn are_columns(columns: &[Column]) -> bool
    ensures { IsTrue result ↔ (columns.now ≡ rows_table.columns) }
{
    match columns {
        [kind, owner, place, value] => is_column(kind, b"kind", Kind::Integer)
            && is_column(owner, b"owner", Kind::Blob)
            && is_column(place, b"place", Kind::Blob)
            && is_column(value, b"value", Kind::Blob),
        _ => false,
    }
}

fn are_places(places: &[usize]) -> bool
    ensures { IsTrue result ↔ (places.now ≡ 1 ∷ 2 ∷ 3 ∷ []) }
{
    match places {
        [a, b, c] => *a == 1 && *b == 2 && *c == 3,
        _ => false,
    }
}

fn no_terms(terms: &Terms) -> bool
    ensures { IsTrue result ↔ (terms.now ≡ []) }
{
    terms.roots.as_slice().is_empty()
}

fn is_unstamped(stamps: &Stamps) -> bool
    ensures { IsTrue result ↔ (stamps.now ≡ no_stamps) }
{
    stamps.places.as_slice().is_empty()
        && no_terms(&stamps.terms)
        && stamps.formats.as_slice().is_empty()
}

fn has_key(table: &Table) -> bool
    ensures { IsTrue result ↔ ((table.now.primary ≡ rows_table.primary) × (table.now.uniques ≡ rows_table.uniques) × (table.now.orders ≡ rows_table.orders)) }
{
    match (table.uniques.as_slice(), table.orders.as_slice()) {
        ([key], [order]) => are_places(table.primary.as_slice())
            && are_places(key.as_slice())
            && order.digits == 0,
        _ => false,
    }
}

fn is_bare(table: &Table) -> bool
    ensures { IsTrue result ↔ ((table.now.key ≡ None) × (table.now.checks ≡ []) × (table.now.references ≡ []) × (table.now.computed ≡ []) × (table.now.stamps ≡ no_stamps) × (table.now.is_counted ≡ false)) }
{
    table.key.is_none()
        && no_terms(&table.checks)
        && table.references.as_slice().is_empty()
        && table.computed.as_slice().is_empty()
        && is_unstamped(&table.stamps)
        && !table.is_counted
}

fn is_table(table: &Table) -> bool
    ensures { IsTrue result ↔ (table.now ≡ rows_table) }
{
    table.name.as_slice() == b"rows".as_slice()
        && table.tree == 0
        && are_columns(table.columns.as_slice())
        && has_key(table)
        && is_bare(table)
}

fn is_index(index: &Index) -> bool
    ensures { IsTrue result ↔ (index.now ≡ rows_index) }
{
    index.name.as_slice() == b"sqlite_autoindex_rows_1".as_slice()
        && index.tree == 1
        && index.table == 0
        && are_places(index.columns.as_slice())
        && index.order.digits == 0
        && index.is_unique
}

fn is_listed(schema: &Schema) -> bool
    ensures { IsTrue result ↔ (schema.now ≡ listed_schema) }
{
    match (schema.tables.as_slice(), schema.indexes.as_slice()) {
        ([table], [index]) => is_table(table)
            && is_index(index)
            && schema.views.as_slice().is_empty(),
        _ => false,
    }
}

/// Whether there is the table of rows, and nothing else.
pub fn is_ours(schema: &Schema) -> bool
    ensures { IsTrue result ↔ (schema.now ≡ rows_schema) }
{
    is_listed(schema)
}
