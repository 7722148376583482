ghost use Rattle.std.specs.Prelude.{◌≡◌, ℕ, List, length, Some};
ghost use Rattle.alpha_words.specs.declared.PalCall.{PalCall};
ghost use Rattle.alpha_words.specs.declared.PalCall.TheVariants.{Callsys};
ghost use Rattle.alpha_mem.specs.Block.{Block, shapes};
ghost use Rattle.alpha_pal.specs.Call.{Traffic, continues, call};
ghost use Rattle.alpha_pal.specs.Serve.{serve, system_call_of, after_serve};
ghost use Rattle.alpha_pal.specs.declared.pal_end.Passed.{Passed};
ghost use Rattle.alpha_pal.specs.CallEffect.{CallView, CallReturns, CallReturnsTold};

/// The laws of calls: a call that goes on leaves where the blocks of memory lie and how many registers
/// there are. A system call is what the code makes of it in parts. Where the input was told, what a call
/// did is the definition at that input.
pub fn laws_of_calls()
    ensures shapes { (function : PalCall) (regs regs' : List ℕ) (mem mem' : List Block)
        (unique unique' : ℕ) (input : List ℕ) (traffic : Traffic)
        → call function regs mem unique input ≡ continues regs' mem' unique' traffic
        → shapes mem' ≡ shapes mem }
    ensures registers { (function : PalCall) (regs regs' : List ℕ) (mem mem' : List Block)
        (unique unique' : ℕ) (input : List ℕ) (traffic : Traffic)
        → call function regs mem unique input ≡ continues regs' mem' unique' traffic
        → length regs' ≡ length regs }
    ensures served { (regs : List ℕ) (mem : List Block) (unique : ℕ) (input : List ℕ)
        → call Callsys regs mem unique input
        ≡ after_serve regs unique (serve (system_call_of regs) mem input) }
    ensures told { (function : PalCall) (passed : Passed) (old new : CallView) (left : List ℕ)
        → old.supply.left ≡ Some left → CallReturns function passed old new
        → CallReturnsTold function old new left }
{}
