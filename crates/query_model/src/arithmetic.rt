// The arithmetic of values, on numbers of one type.
ghost use Rattle.std.specs.Prelude.{◌≡◌};
ghost use Rattle.query_model.specs.Expressions.{arith_value};
ghost use Rattle.chunk_data.specs.declared.typed_value.Value.TheVariants as value;
ghost use Rattle.query_model.specs.declared.query.ArithOp.TheVariants.{Add, Sub, Mul};

/// `a + b` of UInt64.
#[tactic(auto, unfolding(crate::specs::Numbers::wrapped))]
pub fn add_uint(a: u64, b: u64) -> u64
    ensures { value.UInt result ≡ arith_value Add (value.UInt a) (value.UInt b) }
{
    a.wrapping_add(b)
}

/// `a + b` of Int64.
#[tactic(auto, unfolding(crate::specs::Numbers::wrapped))]
pub fn add_int(a: i64, b: i64) -> i64
    ensures { value.Int result ≡ arith_value Add (value.Int a) (value.Int b) }
{
    a.wrapping_add(b)
}

/// `a - b` of UInt64, an Int64.
#[tactic(auto, unfolding(crate::specs::Numbers::wrapped))]
pub fn sub_uint(a: u64, b: u64) -> i64
    ensures { value.Int result ≡ arith_value Sub (value.UInt a) (value.UInt b) }
{
    a.wrapping_sub(b).cast_signed()
}

/// `a - b` of Int64.
#[tactic(auto, unfolding(crate::specs::Numbers::wrapped))]
pub fn sub_int(a: i64, b: i64) -> i64
    ensures { value.Int result ≡ arith_value Sub (value.Int a) (value.Int b) }
{
    a.wrapping_sub(b)
}

/// `a * b` of UInt64.
#[tactic(auto, unfolding(crate::specs::Numbers::wrapped))]
pub fn mul_uint(a: u64, b: u64) -> u64
    ensures { value.UInt result ≡ arith_value Mul (value.UInt a) (value.UInt b) }
{
    a.wrapping_mul(b)
}

/// `a * b` of Int64.
#[tactic(auto, unfolding(crate::specs::Numbers::wrapped))]
pub fn mul_int(a: i64, b: i64) -> i64
    ensures { value.Int result ≡ arith_value Mul (value.Int a) (value.Int b) }
{
    a.wrapping_mul(b)
}
