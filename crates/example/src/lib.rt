//! The history of the product's example, for the tests of several crates.
#![tactic(auto)]

/// The text of `examples/widgets.toml`, without the comment that it begins with.
pub const WIDGETS: &str = r#"first = "1.28"
last = "1.33"
gate = [
 {name="WidgetColor", since="1.29", stage="ALPHA", default=false},
 {name="WidgetColor", since="1.31", stage="BETA", default=true},
 {name="WidgetColor", since="1.33", stage="", default=true, locked=true},
 {name="SlowMode", since="1.28", stage="BETA", default=true},
 {name="SlowMode", since="1.29", stage="", default=true, locked=true},
 {name="SlowMode", since="1.32", removed=true},
]
api = [
 {group="demo.example", version="v1beta1", resource="widgets", since="1.28", event="introduced", kind="Widget", singular="widget", namespaced=true, enabled=true},
 {group="demo.example", version="v1beta1", resource="widgets", since="1.30", event="deprecated", removal="1.33", replacement="v1"},
 {group="demo.example", version="v1beta1", resource="widgets", since="1.33", event="removed"},
 {group="demo.example", version="v1", resource="widgets", since="1.30", event="introduced", kind="Widget", singular="widget", namespaced=true, enabled=true},
 {group="demo.example", version="v1alpha1", resource="gadgets", since="1.32", event="introduced", kind="Gadget", singular="gadget", namespaced=true, enabled=false},
]
field = [
 {group="demo.example", resource="widgets", id="size", since="1.28", type="Int", required=true},
 {group="demo.example", resource="widgets", id="paused", since="1.28", type="Bool"},
 {group="demo.example", resource="widgets", id="color", since="1.29", type="Text", gate="WidgetColor"},
]
spell = [
 {group="demo.example", resource="widgets", version="v1beta1", field="size", since="1.28", path="spec.size"},
 {group="demo.example", resource="widgets", version="v1", field="size", since="1.30", path="spec.dimensions.size"},
 {group="demo.example", resource="widgets", version="v1beta1", field="paused", since="1.28", path="spec.active", form="Not"},
 {group="demo.example", resource="widgets", version="v1", field="paused", since="1.30", path="spec.paused"},
 {group="demo.example", resource="widgets", version="v1beta1", field="color", since="1.29", path="spec.color"},
 {group="demo.example", resource="widgets", version="v1", field="color", since="1.30", path="spec.color", default="grey"},
]
"#;
