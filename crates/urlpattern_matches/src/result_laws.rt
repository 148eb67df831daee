//! The law of the JSON of results: the JSON of a result is read as an equal result.
//!
//! The function does nothing; its contract is a theorem.
ghost use Rattle.std.specs.Prelude.{◌≡◌, Some};
ghost use Rattle.serde_json.specs.Data.{Data};
ghost use Rattle.urlpattern_matches.specs.ResultJson.{component_result_read, result_read, IsComponentTree, IsResultTree, PlainResultView};
ghost use Rattle.urlpattern_components.specs.declared.eight.Eight.{Eight};

/// The JSON tree of a component's result is read as that result, and the tree of a whole result
/// too.
pub fn results_are_read_back()
    ensures component { (result : PlainResultView) (tree : Data) → IsComponentTree result tree
        → component_result_read tree ≡ Some result }
    ensures result { (result : Eight PlainResultView) (tree : Data) → IsResultTree result tree
        → result_read tree ≡ Some result }
{}
