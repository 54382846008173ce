//! Values and lists on their own.

use sfc_base::items::Items;
use sfc_base::value::{Value, default_value};
use sfc_base::var_type::VarType;
use std::test::Fail;

#[test]
fn a_value_has_a_type_and_each_type_a_first_value(rt: HostRuntime) {
    let table = [
        (VarType::Bool, Value::Bool(false), Value::Bool(true), 0),
        (VarType::Int, Value::Int(0), Value::Int(-1), -1),
        (VarType::Dint, Value::Dint(0), Value::Dint(70_000), 70_000),
        (VarType::Time, Value::Time(0), Value::Time(1), 1),
    ];
    for (var_type, first, other, number) in table {
        assert!(rt; default_value(var_type) == first);
        assert!(rt; (first.var_type(), other.var_type()) == (var_type, var_type));
        assert!(rt; (first.is_true(), other.is_true()) == (false, var_type == VarType::Bool));
        assert!(rt; (first.number(), other.number()) == (0, number));
    }
}

#[test]
fn items_are_a_list(rt: HostRuntime) -> Result<(), Fail> {
    let one = Items::one(rt.alloc(), 7)?;
    assert!(rt; one.as_slice() == [7].as_slice() && one.len() == 1 && !one.is_empty());
    let mut elements = one.into_vec();
    elements.clear();
    let none = Items::from_vec(elements);
    assert!(rt; none.len() == 0 && none.is_empty());
    Ok(())
}
